//! What moves do to the values.
use crate::fixed::{kept, product, quotient};
use crate::lists::item_at;
use crate::stops::Stop;
use crate::table::{Table, sum_at};
use crate::variables::{Standing, Variables};

/// Each loose variable goes to the side that its reduced cost asks for, and stands in a list.
fn settle_loose(
    table: &Table,
    variables: &mut Variables,
    rate: i64,
    values: &mut Vec<i64>,
) -> Result<(), Stop> {
    values.clear();
    for (place, number) in table.loose.iter().enumerate() {
        let mut variable = variables.get(*number);
        variable.settle(item_at(table.costs.as_slice(), place, 0), rate);
        variables.set(*number, variable);
        values.push(variable.value)?;
    }
    Ok(())
}

/// Each loose variable goes to the side that its reduced cost asks for, and all values are formed anew.
pub(crate) fn settle(
    table: &Table,
    variables: &mut Variables,
    rate: i64,
    values: &mut Vec<i64>,
) -> Result<(), Stop> {
    settle_loose(table, variables, rate, values)?;
    for line in &table.lines {
        let mut variable = variables.get(line.variable);
        variable.standing = Standing::Basic;
        variable.value = kept(sum_at(line.entries.as_slice(), values.as_slice()))?;
        variables.set(line.variable, variable);
    }
    Ok(())
}

/// The value of a variable changes by so much.
pub(crate) fn move_by(variables: &mut Variables, number: u32, by: i128) -> Result<(), Stop> {
    let mut variable = variables.get(number);
    variable.value = kept(i128::from(variable.value).wrapping_add(by))?;
    variables.set(number, variable);
    Ok(())
}

/// The basic variables follow the loose one at a place, which moves by so much.
fn follow(table: &Table, variables: &mut Variables, place: usize, by: i64) -> Result<(), Stop> {
    for line in &table.lines {
        let entry = item_at(line.entries.as_slice(), place, 0);
        if entry != 0 {
            let more = product(entry, by)?;
            move_by(variables, line.variable, i128::from(more))?;
        }
    }
    Ok(())
}

/// The variable of a line goes to a side and becomes loose, the loose one at a place basic.
pub(crate) fn exchange(
    table: &mut Table,
    variables: &mut Variables,
    line: usize,
    place: usize,
    standing: Standing,
) -> Result<(), Stop> {
    let Some(own) = table.lines.get(line) else {
        return Err(Stop::GaveUp);
    };
    let outgoing = own.variable;
    let entry = item_at(own.entries.as_slice(), place, 0);
    let mut leaving = variables.get(outgoing);
    let before = leaving.value;
    leaving.stand(standing);
    let way = leaving.value.wrapping_sub(before);
    let by = quotient(way, entry)?;
    follow(table, variables, place, by)?;
    let incoming = table.loose_at(place);
    move_by(variables, incoming, i128::from(by))?;
    variables.set(outgoing, leaving);
    variables.stand(incoming, Standing::Basic);
    table.swap(line, place)
}

/// The loose variable at a place goes to its other side.
pub(crate) fn flip(table: &Table, variables: &mut Variables, place: usize) -> Result<(), Stop> {
    let number = table.loose_at(place);
    let mut variable = variables.get(number);
    let before = variable.value;
    variable.flip();
    follow(table, variables, place, variable.value.wrapping_sub(before))?;
    variables.set(number, variable);
    Ok(())
}
