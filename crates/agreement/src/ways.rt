// What comes of a set in one of its ways of linking: its units are compiled, each alone, and their objects linked and run. Where too few words
// are lent the ending says so.
use crate::sets::Set;
use compiler::compile;
use machine::{Ran, Status};
use rows::units::Refusal;
use semantics::linked::{RunError, run_linked};
use std::alloc::{AllocError, Global};
use std::fmt;
use thiserror::Error;

// How many words there are for a set's objects together, and how many are lent to work with.
const OBJECT_WORDS: usize = 131_072;

const WORK_WORDS: usize = 262_144;

// An image's words in front of the units' code: a call of the first procedure and a halt, of two words each.
const HEAD_WORDS: usize = 4;

// A way of linking: units in an order, without the unrelated unit or with it.
#[derive(Clone, Copy, PartialEq, Eq, Debug)]
pub enum Way<'a> {
    Order(&'a [u32]),
    WithExtra(&'a [u32]),
}

impl<'a> Set<'a> {
    // The way of a number: the orders, and behind all of them the first with the unrelated unit.
    fn way(&self, number: u32) -> Way<'a> {
        if number < self.order_count {
            Way::Order(self.order(number))
        } else {
            Way::WithExtra(self.order(0))
        }
    }
}

// The words put out, and how the run ended.
#[derive(Clone, Copy, PartialEq, Eq, Debug)]
pub struct Outcome<'o> {
    out: &'o [u32],
    status: Status,
}

impl fmt::Display for Outcome<'_> {
    fn fmt<W: fmt::Write>(&self, f: &mut fmt::Formatter<W>) -> fmt::Result {
        for word in self.out {
            write!(f, "{word} ")?;
        }
        write!(f, "{}", self.status)
    }
}

// Why nothing came of a set.
#[derive(Clone, Copy, Debug, Error, PartialEq, Eq)]
pub enum Failure {
    #[error(transparent)]
    Refused(#[from] Refusal),
    #[error(transparent)]
    NotRun(#[from] RunError),
}

// What a set is worked out with: the objects of its units, one behind the other in the first `size` words, and the words that are lent for all
// else. What is put out goes to words that the caller lends.
#[derive(Debug, Drop)]
pub struct Bench {
    objects: Vec<u32>,
    size: usize,
    work: Vec<u32>,
}

impl Bench {
    pub fn new(alloc: Global) -> Result<Bench, AllocError> {
        Ok(Bench {
            objects: vec![in alloc; 0; OBJECT_WORDS]?,
            size: 0,
            work: vec![in alloc; 0; WORK_WORDS]?,
        })
    }

    // What comes of the set in the way of a number.
    pub fn outcome<'o>(
        &mut self,
        set: &Set<'_>,
        way: u32,
        out: &'o mut [u32],
    ) -> Result<Outcome<'o>, Failure> {
        self.compile_way(set, set.way(way))?;
        let Ran { status, put } = self.run(set, out)?;
        Ok(Outcome {
            out: out.get(..put).unwrap_or_default(),
            status,
        })
    }

    // Whether in all other ways the same comes of the set as in the first.
    pub fn agrees(
        &mut self,
        set: &Set<'_>,
        first: &Result<Outcome<'_>, Failure>,
        out: &mut [u32],
    ) -> bool {
        // no `all`: the borrow checker does not cover a closure that compares what borrows from the words that are lent to it
        for number in 0..set.order_count {
            if self.outcome(set, number + 1, out) != *first {
                return false;
            }
        }
        true
    }

    // Compiles the units for a way, each alone.
    fn compile_way(&mut self, set: &Set<'_>, way: Way<'_>) -> Result<(), Failure> {
        self.size = 0;
        match way {
            Way::Order(order) => self.compile_all(set, order),
            Way::WithExtra(order) => {
                let (before, behind) = order.split_at(order.len().min(set.place as usize));
                self.compile_all(set, before)?;
                self.compile_one(set.extra)?;
                self.compile_all(set, behind)
            }
        }
    }

    // Compiles the units of these numbers.
    fn compile_all(&mut self, set: &Set<'_>, numbers: &[u32]) -> Result<(), Failure> {
        for number in numbers {
            self.compile_one(set.unit(*number))?;
        }
        Ok(())
    }

    // Compiles a unit, and puts its object behind the others.
    fn compile_one(&mut self, unit: &[u32]) -> Result<(), Failure> {
        let size = self.size.min(self.objects.len());
        let (_, free) = self.objects.split_at_mut(size);
        let words = compile(unit, free, &mut self.work)?;
        self.size = size.saturating_add(words);
        Ok(())
    }

    // Links the objects and runs them, for as many steps as can be asked for.
    fn run(&mut self, set: &Set<'_>, out: &mut [u32]) -> Result<Ran, RunError> {
        let objects = &self.objects[..self.size.min(self.objects.len())];
        let middle = self.work.len().min(objects.len() + HEAD_WORDS);
        let (image, memory) = self.work.split_at_mut(middle);
        run_linked(
            objects,
            set.room,
            set.tape,
            set.calls,
            u32::MAX,
            image,
            out,
            memory,
        )
    }
}
