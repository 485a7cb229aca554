//! Cuts that were found, and which of them are brought.
use crate::numbers::UNIT;
use crate::stops::Stop;
use crate::sums::Terms;
use cip_frac::short_gcd;
use cip_plugin::Cut;
use std::alloc::{AllocError, Global};

// Coefficients of cuts are below this.
const MOST: u64 = 1 << 20;

// The least score: by 10^-4 of its length a cut is to cut the last point off.
const LEAST: u128 = 2_800_000;

// The most cuts that are kept in a round.
const MOST_FOUND: usize = 200;

/// The divisor that a cut's coefficients have in common, the sum of the squares of what is left of them, and its score.
#[derive(Clone, Copy)]
pub struct Measure {
    /// The divisor.
    pub divisor: u64,
    /// The sum of the squares.
    pub square: u128,
    /// The square of how far the last point is cut off for the length of the cut, over 2^48.
    pub score: u128,
}

/// The greatest common divisor of coefficients.
fn divisor_of(terms: &Terms) -> u64 {
    let mut divisor = 0;
    for term in terms {
        divisor = short_gcd(divisor, term.1.unsigned_abs());
    }
    divisor
}

/// The measure of a cut that the last point breaks by so much, roughly, over 2^24 and before the common divisor is
/// taken out; none where its coefficients are all 0, or one has more than 20 bits without their common divisor, and
/// where the point is cut off by less than a ten-thousandth of the cut's length.
pub fn measure_of(terms: &Terms, broken: i128) -> Option<Measure> {
    if broken <= 0 {
        return None;
    }
    let divisor = divisor_of(terms);
    let mut square = 0u128;
    for term in terms {
        let size = term.1.unsigned_abs().checked_div(divisor).unwrap_or(MOST);
        if size >= MOST {
            return None;
        }
        let long = u128::from(size);
        square = square.wrapping_add(long.wrapping_mul(long));
    }
    let far = broken.checked_div(i128::from(divisor)).unwrap_or(0);
    let size = far.unsigned_abs().min(1 << 60);
    let score = size.wrapping_mul(size).checked_div(square).unwrap_or(0);
    if score < LEAST {
        return None;
    }
    Some(Measure {
        divisor,
        square,
        score,
    })
}

/// A cut that was found.
#[derive(Drop)]
pub struct Candidate {
    /// Its coefficients, without a common divisor.
    pub terms: Terms,
    /// The sum of their squares.
    pub square: u128,
    /// How far it cuts the last point off, as its measure says.
    pub score: u128,
    /// The cut, until it is brought.
    pub cut: Option<Cut>,
}

/// The product of two cuts' coefficients.
fn product_of(terms: &[(u32, i64)], others: &[(u32, i64)]) -> i128 {
    let mut sum = 0i128;
    let mut here = 0usize;
    let mut there = 0usize;
    for _ in 0..terms.len().saturating_add(others.len()) {
        let (Some(term), Some(other)) = (terms.get(here), others.get(there)) else {
            return sum;
        };
        if term.0 == other.0 {
            let both = i128::from(term.1).wrapping_mul(i128::from(other.1));
            sum = sum.wrapping_add(both);
        }
        if term.0 <= other.0 {
            here = here.wrapping_add(1);
        }
        if other.0 <= term.0 {
            there = there.wrapping_add(1);
        }
    }
    sum
}

/// Whether a cut is nearly parallel to one of these: the cosine of their angle is above .9.
fn is_like_one(list: &[Candidate], picked: &[usize], place: usize) -> bool {
    let Some(candidate) = list.get(place) else {
        return true;
    };
    for other in picked {
        if let Some(held) = list.get(*other) {
            let both = product_of(candidate.terms.as_slice(), held.terms.as_slice());
            let size = both.max(0).unsigned_abs();
            let squares = candidate.square.wrapping_mul(held.square);
            if size.wrapping_mul(size).wrapping_mul(100) > squares.wrapping_mul(81) {
                return true;
            }
        }
    }
    false
}

/// Picks cuts in the order of their ranks and brings them, at most so many: those that are nearly parallel to none that
/// was picked, and weren't brought before.
fn bring_best(
    ranks: &[(u128, usize)],
    list: &mut [Candidate],
    picked: &mut Vec<usize>,
    most: usize,
    cuts: &mut Vec<Cut>,
) -> Result<(), AllocError> {
    for rank in ranks {
        if cuts.len() >= most {
            break;
        }
        if is_like_one(list, picked.as_slice(), rank.1) {
            continue;
        }
        picked.push(rank.1)?;
        let Some(candidate) = list.get_mut(rank.1) else {
            continue;
        };
        if let Some(cut) = candidate.cut.take() {
            cuts.push(cut)?;
        }
    }
    Ok(())
}

/// The cuts that were found in a round, and each by its score and its place.
#[derive(Drop)]
pub struct Candidates {
    list: Vec<Candidate>,
    ranks: Vec<(u128, usize)>,
    picked: Vec<usize>,
}

impl Candidates {
    /// None.
    pub fn new(alloc: Global) -> Candidates {
        Candidates {
            list: Vec::new(alloc),
            ranks: Vec::new(alloc),
            picked: Vec::new(alloc),
        }
    }

    /// Takes all away.
    pub fn clear(&mut self) {
        self.list.clear();
        self.ranks.clear();
        self.picked.clear();
    }

    /// Whether no more are kept in this round.
    pub fn is_full(&self) -> bool {
        self.list.len() >= MOST_FOUND
    }

    /// How many there are.
    pub fn len(&self) -> usize {
        self.list.len()
    }

    /// Keeps a cut. `Err` where memory was refused, and then nothing more is to be kept until all are taken away.
    pub fn push(&mut self, candidate: Candidate) -> Result<(), AllocError> {
        let rank = (candidate.score, self.list.len());
        self.list.push(candidate)?;
        self.ranks.push(rank)?;
        Ok(())
    }

    /// Keeps a cut, if there is one. `Err` comes as of `push`, and where memory was refused for the cut.
    pub(crate) fn keep(&mut self, found: Result<Candidate, Stop>) -> Result<(), AllocError> {
        match found {
            Ok(candidate) => self.push(candidate),
            Err(Stop::GaveUp) => Ok(()),
            Err(Stop::NoMemory) => Err(AllocError),
        }
    }

    /// The best cuts, at most so many, none nearly parallel to a better one; each is brought once. `Err` where memory
    /// was refused.
    pub fn choose(&mut self, alloc: Global, most: usize) -> Result<Vec<Cut>, AllocError> {
        self.ranks.sort_unstable();
        self.ranks.reverse();
        let mut cuts = Vec::new(alloc);
        bring_best(
            self.ranks.as_slice(),
            self.list.as_mut_slice(),
            &mut self.picked,
            most,
            &mut cuts,
        )?;
        Ok(cuts)
    }
}

/// By how much a row is broken, roughly and over 2^24: what it comes to, over 2^24, less its right side. 0 where that
/// leaves the range.
pub fn broken_by(sum: i128, right: i128) -> i128 {
    match right.checked_mul(i128::from(UNIT)) {
        Some(far) => sum.checked_sub(far).unwrap_or(0),
        None => 0,
    }
}
