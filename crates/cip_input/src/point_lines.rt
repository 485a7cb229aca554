//! The lines of a text of a point, one after another.
ghost use Rattle.std.specs.Prelude.{◌≡◌, ◌<◌, ◌≤◌, ℕ, vec_len, length, map, false, IfSome, IfOk, unwrap_or};
ghost use Rattle.std.specs.List.{list_any};
ghost use Rattle.cip_rational.specs.Rational.{zeroℚ};
ghost use Rattle.cip_text_rules.specs.Lines.{is_line_feed};
ghost use Rattle.cip_rational.specs.FractionText.{fraction_of};
ghost use Rattle.cip_text_rules.specs.LineStream.{Going, line_read};
ghost use Rattle.cip_text.specs.PieceStands.{progress_after};
ghost use Rattle.cip_text_rules.specs.PointRules.{ValueLine};
ghost use Rattle.cip_text_rules.specs.PointSteps.{no_values};

use cip_frac::Frac;
use cip_model::Program;
use cip_text::{fields_of, fraction};
use cip_text_rules::point_steps::point_lines_have_tests;
use cip_text_rules::step_laws::numbers_are_of_names;
use std::alloc::{AllocError, Global};

/// What the lines that have ended gave: a value for each column of the program, once it was given.
#[derive(Drop)]
pub(crate) struct PointLines<'a> {
    pub(crate) program: &'a Program,
    pub(crate) values: Vec<Option<Frac>>,
    ghost sized: { vec_len values ≡ length program.now.column_names },
}

/// The values, 0 where one was not given.
pub(crate) fn point_of(alloc: Global, values: &[Option<Frac>]) -> Result<Vec<Frac>, AllocError>
    ensures { IfOk result (λ point. point.items ≡ map (λ value. unwrap_or value zeroℚ) values.now) }
{
    let mut point = Vec::new(alloc);
    for value in values {
        point.push(value.unwrap_or(Frac::zero()))?;
    }
    Ok(point)
}

impl<'a> PointLines<'a> {
    ghost use Rattle.cip_input.specs.PointLinesRead.{program_of, values_of, steps_of, IsTaken};

    /// Before the first line.
    pub(crate) fn new(alloc: Global, program: &'a Program) -> Result<PointLines<'a>, AllocError>
        ensures { IfOk result (λ lines. (program_of lines ≡ program.now) × (values_of lines ≡ no_values program.now)) }
    {
        let mut values = Vec::new(alloc);
        values.resize(program.column_names().len(), None)?;
        Ok(PointLines { program, values })
    }

    /// Takes one line more, and says the kind of its fault, if it has one.
    pub(crate) fn take_line(&mut self, line: &[u8]) -> Option<u32>
        requires { list_any is_line_feed line.now ≡ false }
        ensures read { (number : ℕ) → line_read (steps_of self.old) (Going (values_of self.old)) number line.now
            ≡ progress_after number result (values_of self.new) }
        ensures kinds { IfSome result (λ kind. (0 < kind) × (kind ≤ 6)) }
        ensures same { program_of self.new ≡ program_of self.old }
    {
        point_lines_have_tests();
        let Some(mut fields) = fields_of(line, b'*') else {
            return None;
        };
        let Some(column) = fields.next_field() else {
            return Some(1);
        };
        let Some(text) = fields.next_field() else {
            return Some(1);
        };
        match fields.next_field() {
            None => self.take_value(column, text),
            Some(_) => Some(1),
        }
    }

    /// Takes the value of a column.
    fn take_value(&mut self, column: &[u8], text: &[u8]) -> Option<u32>
        ensures taken { IsTaken (program_of self.old) (values_of self.old) (values_of self.new)
            (ValueLine column.now (fraction_of text.now)) result }
        ensures kinds { IfSome result (λ kind. (0 < kind) × (kind ≤ 6)) }
        ensures same { program_of self.new ≡ program_of self.old }
    {
        point_lines_have_tests();
        numbers_are_of_names();
        let Some(number) = self.program.column_names().find(column) else {
            return Some(2);
        };
        if self.values[number].is_some() {
            return Some(3);
        }
        match fraction(text) {
            Err(_) => Some(4),
            Ok(value) => {
                self.values[number] = Some(value);
                None
            }
        }
    }

    /// The kind of the fault behind the last line, if there is one: a column was not given.
    pub(crate) fn end_kind(&self) -> Option<u32>
        ensures fault { result ≡ (steps_of self.now).end_fault (values_of self.now) }
        ensures kinds { IfSome result (λ kind. (0 < kind) × (kind ≤ 6)) }
    {
        let values = self.values.as_slice();
        for value in values {
            if value.is_none() {
                return Some(5);
            }
        }
        None
    }
}
