// Forms that are joined from single cells.
//
// Forms are told apart from faults by `match`, not by `?`: the kit does not yet prove a call that is handed what a
// generic call made, where that holds an array of a type with a view, as a form does.
use forms::{Cell, Fault, Form, Term};
use joins::{compose, max, min};

// The first row of the window.
const TOP: i32 = -4;

// The form of the cell at a row and a column, or the fault of leaving the window.
pub(crate) fn at(row: i32, column: i32) -> Result<Form, Fault> {
    let cell = Cell::new(row, column).ok_or(Fault::OutsideWindow)?;
    Ok(Form::single(Term::from(cell)))
}

// The max of two cells of one row.
pub(crate) fn pair(row: i32, left: i32, right: i32) -> Result<Form, Fault> {
    match (at(row, left), at(row, right)) {
        (Ok(left), Ok(right)) => max(&left, &right),
        (Err(fault), _) | (_, Err(fault)) => Err(fault),
    }
}

// The min of the pairs in the rows from the first to the last one.
pub(crate) fn min_of_pairs(last: i32, left: i32, right: i32) -> Result<Form, Fault> {
    let mut joined = pair(TOP, left, right);
    for row in TOP + 1..=last {
        joined = match (joined, pair(row, left, right)) {
            (Ok(joined), Ok(pair)) => min(&joined, &pair),
            (Err(fault), _) | (_, Err(fault)) => Err(fault),
        };
    }
    joined
}

// The cell so many rows below, after the cell so many rows below.
pub(crate) fn after(first: i32, second: i32) -> Result<Form, Fault> {
    match (at(first, 0), at(second, 0)) {
        (Ok(outer), Ok(inner)) => compose(&outer, &inner),
        (Err(fault), _) | (_, Err(fault)) => Err(fault),
    }
}
