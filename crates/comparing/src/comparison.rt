// What a comparison of two texts tells.
use crate::witness::Witness;
use expressions::Fault;
use forms::Form;

/// One of the two texts.
#[derive(Clone, Copy, PartialEq, Eq, Debug)]
pub enum Side {
    /// The first text.
    Left,
    /// The second text.
    Right,
}

/// Why texts are not compared: one of them is not accepted.
#[derive(Clone, Copy, PartialEq, Eq, Debug)]
pub struct CompareFault {
    /// Which text it is.
    pub side: Side,
    /// Its fault.
    pub fault: Fault,
}

/// The forms of the two texts, and a witness where they differ.
#[derive(Clone, Copy)]
pub struct Comparison<K> {
    /// The form of the left text.
    pub left: Form,
    /// The form of the right text.
    pub right: Form,
    /// Where the forms differ, a witness of it.
    pub witness: Option<Witness<K>>,
}
