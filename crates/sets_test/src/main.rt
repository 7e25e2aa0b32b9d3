// A history of forty additions to a store of data sets, with frames of all confRevs read after each.
// Prints how additions and readings were answered, and how many answers changed or were not expected.
#![tactic(auto)]

mod additions;
mod by_flat;
mod by_records;
mod counts;
mod draw;
mod frames;
mod history;
mod readings;

use crate::counts::{Additions, Readings, Searches, more};
use crate::frames::{KINDS, Kind};
use rt_services::SavDataSetConfig;
use set_store::DataSets;
use std::alloc::{AllocError, Global};
use std::io;

// The octets of a frame, with 77 after them, and how many there are. The writer is lent a buffer of
// fixed length, which is compared whole. readings_test has one of another length: a crate for two fields
// would be longer than they are.
#[derive(Clone, Copy)]
pub struct Frame {
    pub octets: [u8; layout::MAX_OCTETS],
    pub size: usize,
}

impl Frame {
    // The octets without those after the end.
    pub fn kept(&self) -> &[u8] {
        &self.octets[..self.size.min(layout::MAX_OCTETS)]
    }
}

// All that is counted.
#[derive(Drop)]
struct Tally {
    additions: Additions,
    searches: Searches,
    by_records: Readings,
    by_flat: Readings,
}

impl Tally {
    fn new(alloc: Global) -> Result<Tally, AllocError> {
        Ok(Tally {
            additions: Additions::default(),
            searches: Searches::default(),
            by_records: Readings::new(alloc)?,
            by_flat: Readings::new(alloc)?,
        })
    }

    // Looks for a row's set in a store that holds so many rows.
    fn find(&mut self, row: usize, store: DataSets, held: usize) {
        let found = additions::find(row, &store);
        more(&mut self.searches.found, found.is_some());
        more(
            &mut self.searches.unexpected,
            !additions::is_right(found, row, held),
        );
    }

    // Reads frame f, of a row and kind, into records and into flat arrays. Each answer is held to ordinary
    // reading with the set of the row, and to the frame's first answer that wasn't 15. A frame that the
    // writer refuses isn't expected.
    fn read(&mut self, f: usize, row: usize, kind: Kind, store: DataSets, held: usize) {
        let room = if kind.is_short {
            30
        } else {
            SavDataSetConfig::MAX_SAMPLES
        };
        let Ok(frame) = frames::write(f, row, kind) else {
            more(&mut self.by_records.unexpected, true);
            return;
        };
        let set = history::set_of(row);
        let got = by_records::by_sets(frame.kept(), room, &store);
        let ordinary = by_records::ordinary(&frame, room, set);
        let expected = readings::expected(kind, row < held, ordinary, by_records::NO_SET);
        self.by_records.count(f, got, expected);
        let got = by_flat::by_sets(frame.kept(), room, &store);
        let ordinary = by_flat::ordinary(frame.kept(), room, set);
        let expected = readings::expected(kind, row < held, ordinary, by_flat::LENT_SET);
        self.by_flat.count(f, got, expected);
    }

    // Looks for every row's set and reads every frame, where so many rows are held.
    fn read_all(&mut self, store: DataSets, held: usize) {
        for row in 0..history::ROWS {
            self.find(row, store, held);
            for (i, kind) in KINDS.iter().enumerate() {
                self.read(row * KINDS.len() + i, row, *kind, store, held);
            }
        }
    }

    // Printed line by line, here and below: nothing else shows these numbers, so a Display would be longer.
    fn print(&self, rt: &impl Print) -> io::Result<()> {
        self.print_additions(rt)?;
        println!(rt; "readings into records")?;
        print_readings(rt, &self.by_records)?;
        println!(rt; "readings into flat arrays")?;
        print_readings(rt, &self.by_flat)?;
        let changed = self.by_records.changed.saturating_add(self.by_flat.changed);
        println!(rt; "answers that changed: {changed}")?;
        let unexpected = self
            .by_records
            .unexpected
            .saturating_add(self.by_flat.unexpected);
        println!(rt; "answers otherwise than expected: {unexpected}")
    }

    fn print_additions(&self, rt: &impl Print) -> io::Result<()> {
        let additions = history::ADDITIONS;
        println!(rt; "additions: {additions}")?;
        println!(rt; "taken: {}", self.additions.taken)?;
        println!(rt; "refused 8: {}", self.additions.too_many_channels)?;
        println!(rt; "refused 14: {}", self.additions.not_added)?;
        println!(rt;
            "answered otherwise than expected: {}",
            self.additions.unexpected
        )?;
        println!(rt; "sets found: {}", self.searches.found)?;
        println!(rt;
            "sets found otherwise than expected: {}",
            self.searches.unexpected
        )
    }
}

fn print_readings(rt: &impl Print, readings: &Readings) -> io::Result<()> {
    println!(rt; "accepted: {}", readings.accepted)?;
    println!(rt; "refused 15: {}", readings.no_set)?;
    println!(rt; "refused 16: {}", readings.other_conf_rev)?;
    println!(rt; "refused otherwise: {}", readings.refused)
}

fn main(rt: HostRuntime) -> io::Result<()> {
    let mut tally = Tally::new(rt.alloc())?;
    let mut store = DataSets::empty();
    let mut held = 0;
    for k in 0..history::ADDITIONS {
        let step = additions::add(k, store, held);
        tally.additions.count(step.refusal, step.is_right);
        store = step.store;
        held = step.held;
        tally.read_all(store, held);
    }
    tally.print(&rt)
}
