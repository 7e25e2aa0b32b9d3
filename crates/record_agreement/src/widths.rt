// What the type i32 says of the elements of an array, which a proof has of an element that is read.
ghost use Rattle.definition.specs.Frame.{Count, All};

// Each is a number of 32 bits.
pub fn counts(l: &[i32])
    ensures { All Count l.now }
{
    for z in l {
        let _z = *z;
    }
}
