// Readings of generated frames, held to each other and to a walk of the frame.
// Pairs of frames of one length that differ in the counts and quality words of hidden channels alone,
// whole and cut: granted reading answers both alike. The writer makes both of one description, with
// the same shown samples. Prints how many pairs there were, how both were answered, and for how many
// the answers differ.
// Frames whose lengths after 87 fit or have been changed, whole and cut: checked reading answers as
// ordinary reading and the walk say. Prints how many frames there were, and how they were answered.
#![tactic(auto)]

mod draw;
mod frames;
mod lengths;
mod pair;
mod readings;
mod walk;

use rt_services::{Refusal, SavDataSetConfig, SavPdu};
use std::io;

// The octets of a frame, and how many they are. The writer is lent a buffer of fixed length; a Vec would
// hand an allocator and its error through every function.
// sets_test has one of another length: a crate for two fields would be longer than they are.
#[derive(Clone, Copy)]
pub struct Frame {
    pub octets: [u8; SavPdu::MAX_FRAME],
    pub size: usize,
}

impl Frame {
    // The first n octets, or all of the buffer where there are fewer.
    pub fn first(&self, n: usize) -> &[u8] {
        &self.octets[..n.min(SavPdu::MAX_FRAME)]
    }
}

// The arrays that a reading is lent.
// Counts and quality words are apart, as every reading is lent them.
// sets_test has the same: a crate for these lines would be longer than they are.
#[derive(Clone, Copy, PartialEq)]
pub struct Arrays {
    pub numbers: [u32; layout::MAX_NUMBERS],
    pub octets: [u8; layout::MAX_OCTETS],
    pub counts: [i32; SavDataSetConfig::MAX_SAMPLES],
    pub words: [u32; SavDataSetConfig::MAX_SAMPLES],
}

impl Arrays {
    // Before the reading.
    pub const LENT: Arrays = Arrays {
        numbers: [77; layout::MAX_NUMBERS],
        octets: [77; layout::MAX_OCTETS],
        counts: [77; SavDataSetConfig::MAX_SAMPLES],
        words: [77; SavDataSetConfig::MAX_SAMPLES],
    };
}

// A refusal, or none; and what is in the arrays.
#[derive(Clone, Copy, PartialEq)]
pub struct Reading {
    pub answer: Result<(), Refusal>,
    pub arrays: Arrays,
}

const PAIRS: u32 = 150000;

const FRAMES: u32 = 250000;

fn test_pairs(rt: &impl Print) -> io::Result<()> {
    // A count for each class, at its place in the enum.
    let mut counts = [0u32; 4];
    for k in 0..PAIRS {
        let count = &mut counts[pair::answer(k) as usize];
        *count = count.saturating_add(1);
    }
    let [same, accepted, refused, differ] = counts;
    println!(rt; "pairs of frames: {PAIRS}")?;
    println!(rt; "that do not differ: {same}")?;
    println!(rt; "that differ, both accepted alike: {accepted}")?;
    println!(rt; "that differ, both refused alike: {refused}")?;
    println!(rt; "that differ, answered differently: {differ}")
}

fn test_frames(rt: &impl Print) -> io::Result<()> {
    // A count for each class, at its place in the enum.
    let mut counts = [0u32; 5];
    for k in 0..FRAMES {
        let count = &mut counts[lengths::answer(k) as usize];
        *count = count.saturating_add(1);
    }
    let [accepted, first, later, refused, wrong] = counts;
    println!(rt; "frames, checked: {FRAMES}")?;
    println!(rt; "accepted as by ordinary reading: {accepted}")?;
    println!(rt; "refused 13 in the first ASDU: {first}")?;
    println!(rt; "refused 13 in a later ASDU: {later}")?;
    println!(rt; "refused as by ordinary reading: {refused}")?;
    println!(rt; "answered otherwise: {wrong}")
}

fn main(rt: HostRuntime) -> io::Result<()> {
    test_pairs(&rt)?;
    test_frames(&rt)
}
