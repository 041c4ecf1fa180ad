// Systems made from a counter.
ghost use Rattle.std.specs.Prelude.{◌<◌};

use crate::atoms::{entry, variable};
use crate::system::System;
use loop_core::decl::PropKind;
use loop_core::nest::{Atom, Side, Term};
use std::alloc::Global;
use wave_base::types::{ArrayId, Memory};

/// Numbers that follow from a counter.
#[derive(Clone, Copy)]
pub struct Dice {
    state: u32,
}

impl Dice {
    /// The numbers of a counter. It takes no memory.
    pub fn of(counter: u32) -> Dice {
        Dice {
            state: counter.wrapping_mul(2654435761).wrapping_add(12345),
        }
    }

    /// One of the first numbers, so many.
    pub fn roll(&mut self, sides: u32) -> u32
        requires { 0 < sides }
        ensures { result < sides }
    {
        self.state = self.state.wrapping_mul(1664525).wrapping_add(1013904223);
        (self.state >> 16) % sides
    }

    fn array(&mut self) -> ArrayId {
        ArrayId(self.roll(3) as u8)
    }

    fn side(&mut self) -> Side {
        match self.roll(3) {
            0 => Side::Own,
            1 => Side::First,
            _ => Side::Second,
        }
    }

    fn size(&mut self) -> Atom {
        match self.roll(3) {
            0 => Atom::Zero,
            1 => Atom::N,
            _ => Atom::Nnz,
        }
    }

    fn leaf(&mut self) -> Atom {
        if self.roll(2) == 0 {
            return self.size();
        }
        let line = 1 + self.roll(2) as u16;
        variable(line, self.side())
    }

    fn plus(&mut self) -> i64 {
        self.roll(4) as i64 - 1
    }

    // A leaf in up to three brackets.
    fn atom(&mut self, alloc: Global) -> Result<Atom, Memory> {
        let mut atom = self.leaf();
        for _ in 0..self.roll(4) {
            let plus = self.plus();
            atom = entry(alloc, self.array(), atom, plus)?;
        }
        Ok(atom)
    }

    fn bound(&mut self) -> Term {
        let atom = self.size();
        let plus = self.plus();
        Term { atom, plus }
    }

    fn range(&mut self, f: ArrayId) -> PropKind {
        let lo = self.bound();
        let hi = self.bound();
        PropKind::Range(f, lo, hi)
    }

    fn kind(&mut self) -> PropKind {
        let f = self.array();
        let g = self.array();
        let h = self.array();
        match self.roll(12) {
            0 => self.range(f),
            1 => PropKind::Rising(f),
            2 => PropKind::Strict(f),
            3 => PropKind::Injective(f),
            4 => PropKind::Sorted(f, g),
            5 => PropKind::Below(f, g),
            6 => PropKind::Upto(f, g),
            7 => PropKind::Before(f, g),
            _ => PropKind::Diagonal(f, g, h),
        }
    }

    fn push_base(&mut self, alloc: Global, system: &mut System) -> Result<(), Memory> {
        for _ in 0..self.roll(6) {
            let a = self.atom(alloc)?;
            let b = self.atom(alloc)?;
            system.push(a, b, 0)?;
        }
        Ok(())
    }

    fn push_terms(&mut self, alloc: Global, system: &mut System) -> Result<(), Memory> {
        for _ in 0..self.roll(3) {
            let atom = self.atom(alloc)?;
            system.push_term(atom)?;
        }
        Ok(())
    }

    fn push_props(&mut self, system: &mut System) -> Result<(), Memory> {
        for line in 0..self.roll(5) {
            let kind = self.kind();
            system.push_prop(line as u16, kind)?;
        }
        Ok(())
    }
}

/// The system of a number: up to five constraints, two further terms and four properties, of entries up
/// to three deep.
pub fn make_system(alloc: Global, counter: u32) -> Result<System, Memory> {
    let mut dice = Dice::of(counter);
    let mut system = System::new(alloc)?;
    dice.push_base(alloc, &mut system)?;
    dice.push_terms(alloc, &mut system)?;
    dice.push_props(&mut system)?;
    Ok(system)
}
