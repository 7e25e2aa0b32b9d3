// What is counted.
use crate::frames::FRAMES;
use crate::readings::Reading;
use rt_services::Reason;
use std::alloc::{AllocError, Global};

// One more, on a condition.
pub fn more(count: &mut u32, is: bool) {
    *count = count.saturating_add(u32::from(is));
}

// How additions were answered: taken, refused 8, refused 14; and otherwise than expected.
#[derive(Clone, Copy, Default)]
pub struct Additions {
    pub taken: u32,
    pub too_many_channels: u32,
    pub not_added: u32,
    pub unexpected: u32,
}

impl Additions {
    // One more, refused for a reason or taken.
    pub fn count(&mut self, refusal: Option<Reason>, is_right: bool) {
        more(&mut self.taken, refusal.is_none());
        more(
            &mut self.too_many_channels,
            refusal == Some(Reason::TooManyChannels),
        );
        more(&mut self.not_added, refusal == Some(Reason::SetNotAdded));
        more(&mut self.unexpected, !is_right);
    }
}

// Sets that were looked for and found, and searches that were answered otherwise than expected.
#[derive(Clone, Copy, Default)]
pub struct Searches {
    pub found: u32,
    pub unexpected: u32,
}

// How the readings of one call were answered: accepted, refused 15, refused 16, refused otherwise; those
// that changed, and those that were not expected. For each frame the first answer that wasn't 15.
#[derive(Drop)]
pub struct Readings {
    pub accepted: u32,
    pub no_set: u32,
    pub other_conf_rev: u32,
    pub refused: u32,
    pub changed: u32,
    pub unexpected: u32,
    firsts: Vec<Option<Reading>>,
}

impl Readings {
    pub fn new(alloc: Global) -> Result<Readings, AllocError> {
        Ok(Readings {
            accepted: 0,
            no_set: 0,
            other_conf_rev: 0,
            refused: 0,
            changed: 0,
            unexpected: 0,
            firsts: vec![in alloc; None; FRAMES]?,
        })
    }

    // One more of frame f.
    pub fn count(&mut self, f: usize, got: Reading, expected: Reading) {
        match got.refusal() {
            None => more(&mut self.accepted, true),
            Some(Reason::NoSet) => more(&mut self.no_set, true),
            Some(Reason::OtherConfRev) => more(&mut self.other_conf_rev, true),
            Some(_) => more(&mut self.refused, true),
        }
        more(&mut self.unexpected, got != expected);
        self.hold(f, got);
    }

    // Holds an answer to frame f against the frame's first that wasn't 15, or keeps it as that.
    fn hold(&mut self, f: usize, got: Reading) {
        let Some(first) = self.firsts.get_mut(f) else {
            return;
        };
        match first {
            Some(first) => more(&mut self.changed, *first != got),
            None => {
                if got.refusal() != Some(Reason::NoSet) {
                    *first = Some(got);
                }
            }
        }
    }
}
