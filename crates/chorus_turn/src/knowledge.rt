//! What a caller knows, for contracts alone: no value of these types is ever made.
use chorus_entry::Entry;
use std::collections::LinkedList;

/// An entry of a journal with its remark, of the type that the state's `Kept` names.
pub struct Remarked<R> {
    pub entry: Entry,
    pub remark: R,
}

/// An entry with the place (from 1) whose turn added it, whatever place the entry itself names, and with what its pass had seen
/// of each place before that turn.
pub struct Placed<R> {
    pub place: u16,
    pub seen: LinkedList<LinkedList<Remarked<R>>>,
    pub remarked: Remarked<R>,
}

/// What a pass that was retired had made: its number, and its entries in order.
pub struct Note<R> {
    pub seat: u32,
    pub mine: LinkedList<Placed<R>>,
}

/// What the caller with a pass knows. The names are this project's own.
pub struct Knowledge<R> {
    /// The number of the pass, below 1,048,576.
    pub seat: u32,
    /// For each place, by its number, the journal as far as it was seen; empty beyond the end.
    pub seen: LinkedList<LinkedList<Remarked<R>>>,
    /// The entries of this pass, in order.
    pub mine: LinkedList<Placed<R>>,
    /// For each refused call the place and the holder that the call found there.
    pub refused: LinkedList<(u16, u32)>,
    /// One note for each pass that was retired into this one, also through others.
    pub notes: LinkedList<Note<R>>,
    /// The one pass that draws numbers.
    pub keeper: bool,
    /// For the keeper the count of numbers drawn, at most 1,048,576; 0 for any other pass.
    pub made: u32,
}
