//! The variables of a linear program: columns, then rows.
use crate::fixed::{OPEN, fixed};
use crate::given::Given;
use crate::lists::{item_at, put_at};
use crate::stops::Stop;
use cip_lin::Frac;
use std::alloc::Global;

/// Where a variable of a linear program stands in a basis.
#[derive(Clone, Copy, PartialEq, Eq)]
pub enum Standing {
    /// It is basic: its value follows from those of the others.
    Basic,
    /// At its low side.
    Low,
    /// At its high side.
    High,
    /// At 0, since it has no side.
    Zero,
}

/// A variable: its value and its sides, times a power of two, and where it stands.
#[derive(Clone, Copy)]
pub(crate) struct Variable {
    pub(crate) value: i64,
    pub(crate) low: i64,
    pub(crate) high: i64,
    pub(crate) standing: Standing,
    pub(crate) up: i32,
}

/// A side times a power of two; what stands for an open one where it is open or too great.
fn fixed_side(side: Option<Frac>, up: i32, open: i64) -> i64 {
    match side {
        Some(side) => fixed(side, up).unwrap_or(open),
        None => open,
    }
}

impl Variable {
    /// A variable at 0 that stands so.
    pub(crate) fn new(standing: Standing) -> Variable {
        Variable {
            value: 0,
            low: -OPEN,
            high: OPEN,
            standing,
            up: 0,
        }
    }

    /// Whether it has a low side.
    pub(crate) fn has_low(&self) -> bool {
        self.low > -OPEN
    }

    /// Whether it has a high side.
    pub(crate) fn has_high(&self) -> bool {
        self.high < OPEN
    }

    /// Whether both sides are the same.
    pub(crate) fn is_fixed(&self) -> bool {
        self.low == self.high
    }

    /// Whether it may rise, or fall, from where it stands.
    pub(crate) fn may_go(&self, up: bool) -> bool {
        match self.standing {
            Standing::Low => up,
            Standing::High => !up,
            Standing::Zero => true,
            Standing::Basic => false,
        }
    }

    /// The way from the low to the high side; that of an open side, where one is.
    pub(crate) fn width(&self) -> i64 {
        if self.has_low() && self.has_high() {
            self.high.saturating_sub(self.low)
        } else {
            OPEN
        }
    }

    /// Puts it where it is to stand.
    pub(crate) fn stand(&mut self, standing: Standing) {
        self.standing = standing;
        self.value = match standing {
            Standing::Low => self.low,
            Standing::High => self.high,
            Standing::Zero => 0,
            Standing::Basic => self.value,
        };
    }

    /// Puts it at the side that its reduced cost asks for, else at the other, else at 0; where that cost is within the
    /// tolerance, it stays where it can.
    pub(crate) fn settle(&mut self, cost: i64, tolerance: i64) {
        let stays_low = cost >= tolerance.saturating_neg() && self.standing != Standing::High;
        let wants_low = cost > tolerance || stays_low;
        let standing = match (self.has_low(), self.has_high()) {
            (true, true) if !wants_low => Standing::High,
            (true, _) => Standing::Low,
            (false, true) => Standing::High,
            (false, false) => Standing::Zero,
        };
        self.stand(standing);
    }

    /// Puts it at its other side.
    pub(crate) fn flip(&mut self) {
        let is_low = self.standing == Standing::Low;
        self.stand(if is_low {
            Standing::High
        } else {
            Standing::Low
        });
    }
}

/// The variables, by number.
#[derive(Drop)]
pub(crate) struct Variables {
    items: Vec<Variable>,
}

impl Variables {
    /// No variables.
    pub(crate) fn new(alloc: Global) -> Variables {
        Variables {
            items: Vec::new(alloc),
        }
    }

    /// How many there are.
    pub(crate) fn len(&self) -> usize {
        self.items.len()
    }

    /// So many columns at their low sides, and so many rows that are basic.
    pub(crate) fn begin(&mut self, columns: usize, rows: usize) -> Result<(), Stop> {
        self.items.clear();
        self.items.resize(columns, Variable::new(Standing::Low))?;
        let all = columns.saturating_add(rows);
        self.items.resize(all, Variable::new(Standing::Basic))?;
        Ok(())
    }

    /// Puts one at the end.
    pub(crate) fn push(&mut self, variable: Variable) -> Result<(), Stop> {
        self.items.push(variable)?;
        Ok(())
    }

    /// A variable, by its number.
    #[inline]
    pub(crate) fn get(&self, number: u32) -> Variable {
        let otherwise = Variable::new(Standing::Basic);
        item_at(self.items.as_slice(), number as usize, otherwise)
    }

    /// Sets a variable.
    #[inline]
    pub(crate) fn set(&mut self, number: u32, variable: Variable) {
        put_at(self.items.as_mut_slice(), number as usize, variable);
    }

    /// The power of two of a variable.
    pub(crate) fn up(&self, number: usize) -> i32 {
        match self.items.get(number) {
            Some(variable) => variable.up,
            None => 0,
        }
    }

    /// Sets it.
    pub(crate) fn set_up(&mut self, number: usize, up: i32) {
        if let Some(variable) = self.items.get_mut(number) {
            variable.up = up;
        }
    }

    /// Puts a variable where it is to stand.
    pub(crate) fn stand(&mut self, number: u32, standing: Standing) {
        if let Some(variable) = self.items.get_mut(number as usize) {
            variable.stand(standing);
        }
    }

    /// Takes the sides of a linear program; one that is too great counts as open.
    pub(crate) fn take_sides(&mut self, given: &Given) {
        for (number, item) in self.items.iter_mut().enumerate() {
            let sides = given.sides(number);
            item.low = fixed_side(sides.low, item.up, -OPEN);
            item.high = fixed_side(sides.high, item.up, OPEN);
        }
    }
}
