// Fitting an object's code to where it lies.
ghost use Rattle.linker.specs.Tables.{laid_of};
ghost use Rattle.linker.specs.Directories.{laid_by};
ghost use Rattle.linker.specs.Fitting.{Met, Known};

use crate::directory::Directory;
use crate::laying::Laid;
use arrayvec::ArrayVec;
use rows::objects::{Fit, Kind};

// How many of an object's wants are looked for again before its code is fitted, where fewer places of its wants were kept. Those of further
// wants are looked for at each fit.
const FEW: usize = 256;

// What an object's code is fitted by: all objects, the object itself, and the places of the first of its wants.
#[derive(Debug, Drop)]
pub struct Fitter<'f, 't, 'a> {
    pub directory: &'f Directory<'t, 'a>,
    pub own: &'f Laid<'a>,
    pub known: &'f [u32],
    // all wants of the object are met
    ghost met: { Met (laid_by directory.now) (laid_of own.now).object.wants },
    // the places are those of its first wants
    ghost right: { Known (laid_by directory.now) (laid_of own.now).object.wants known.now },
}

impl Fitter<'_, '_, '_> {
    ghost use Rattle.std.specs.Prelude.{◌≡◌, length, take, slice_index, slice_set};
    ghost use Rattle.linker.specs.Linking.{fitted as fitted_word, fit_all};
    ghost use Rattle.linker.specs.Fitting.{fitted_code};
    ghost use Rattle.linker.specs.Fitters.{all_of, own_of, wanted_of};

    // The place of the object's want with that number, looked for anew; 0 where there is no such want.
    fn sought(&self, number: usize) -> u32
        ensures { result ≡ slice_index (wanted_of self.now) number }
    {
        // by a match: `and_then` was tried, and what a closure gives that calls `place` is not known to the proof
        match self.own.object.want(number) {
            Some(want) => self.directory.place(want).unwrap_or(0),
            None => 0,
        }
    }

    // The place of the object's want with that number; 0 where there is no such want.
    fn wanted(&self, number: usize) -> u32
        ensures { result ≡ slice_index (wanted_of self.now) number }
    {
        // by a match: `unwrap_or_else` was tried, and what a closure gives that calls `sought` is not known to the proof
        match self.known.get(number) {
            Some(place) => *place,
            None => self.sought(number),
        }
    }

    // What stands at a fit's place afterwards, where `old` stood.
    fn fitted(&self, fit: Fit, old: u32) -> u32
        ensures { result ≡ fitted_word (own_of self.now) (wanted_of self.now) old fit.kind fit.want }
    {
        match fit.what() {
            Kind::Code => old.wrapping_add(self.own.code_at),
            Kind::Words => old.wrapping_add(self.own.words_at),
            Kind::Want(number) => self.wanted(number as usize),
        }
    }

    // Does one fit; of a place outside the code nothing becomes.
    fn fit_word(&self, fit: Fit, code: &mut [u32])
        ensures { code.new ≡ slice_set code.old fit.at (fitted_word (own_of self.now) (wanted_of self.now) (slice_index code.old fit.at) fit.kind fit.want) }
    {
        let at = fit.at as usize;
        // by an index: `get_mut` was tried, and of a slice that it lends nothing is known after the write
        if at < code.len() {
            code[at] = self.fitted(fit, code[at]);
        }
    }

    // Fits the code, one fit after the other.
    fn fit_code(&self, code: &mut [u32])
        ensures { code.new ≡ fit_all (own_of self.now) (wanted_of self.now) (own_of self.now).object.fits code.old }
    {
        let own = self.own;
        let mut left = own.object.fits.iter();
        // no `for`, whose proof would not read with the fits taken from the other end, so that the order would go untried
        while let Some(words) = left.next() {
            self.fit_word(Fit::from(*words), code);
        }
    }

    // The places of the object's first few wants, looked for anew.
    fn first_places(&self) -> ArrayVec<u32, FEW>
        ensures { result.items ≡ take 256 (wanted_of self.now) }
    {
        let mut places = ArrayVec::new();
        let own = self.own;
        for number in 0..own.object.wants.len().min(FEW) {
            places.push(self.sought(number));
        }
        places
    }

    // Fits the code where few places were kept: those of the first few wants are looked for again before it.
    fn fit_anew(&self, code: &mut [u32])
        ensures { code.new ≡ fit_all (own_of self.now) (wanted_of self.now) (own_of self.now).object.fits code.old }
    {
        let places = self.first_places();
        let fitter = Fitter {
            directory: self.directory,
            own: self.own,
            known: &places,
        };
        fitter.fit_code(code);
    }

    // Writes the object's code, fitted, to as many words.
    pub fn write(&self, code: &mut [u32])
        requires { length code.old ≡ length (own_of self.now).object.code }
        ensures { code.new ≡ fitted_code (all_of self.now) (own_of self.now) }
    {
        let own = self.own;
        code.copy_from_slice(own.object.code);
        if self.known.len() < own.object.wants.len().min(FEW) {
            self.fit_anew(code);
        } else {
            self.fit_code(code);
        }
    }
}
