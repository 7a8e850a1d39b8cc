//! The history of a board: the publishes that were begun, and the entries for which they stand. It exists in the proofs alone; the
//! code keeps one word of it.
//!
//! A history has one author. Each stage names a cell of the history's book that is not at home, of which one pen exists, and the
//! stage behind it brings that cell home. So the one that has the pen of the last stage that it saw knows that it saw them all.
ghost use Rattle.std.specs.Prelude.{◌≡◌, [], IfOk};
ghost use mathlib.Core.List.{IsPrefix};
ghost use Rattle.logbook.specs.Pages.{nib, may_write};
ghost use Rattle.chorus_board.specs.Law.{head_of, entries_in, IsAuthor};

use chorus_entry::Entry;
use logbook::{Gain, Offer, Pen, Plain, Play, Rule, Seen, Start, Word};
use std::alloc::AllocError;
use std::marker::{Brand, PhantomData};

/// One publish that was begun: all entries for which it stands, and the cell whose pen may begin the next one. No value is ever made.
pub struct Stage {
    pub entries: [Entry; 0],
    pub next: u64,
}

/// A beginning of the history that was seen. It has no bytes.
pub type Witness = Seen<Stage, u64, Law>;

/// The word through which the history changes.
pub type Head = Word<Stage, u64, Law>;

/// The rule of the history, for proofs alone.
pub struct Law;

impl Rule<Stage, u64> for Law {
    ghost use Rattle.std.specs.Prelude.{[]};
    ghost use base.Fml.{ftrue};
    ghost use Rattle.chorus_board.specs.Law.{IsKept, opening};

    ghost holds = { λ cells log. IsKept cells log };

    ghost first = { opening };

    ghost hinted = { λ n log. Unit {0} };

    ghost shows = { λ log. [] };

    ghost keeps = { λ names log. ftrue };

    ghost moves = { λ ask before after answer. Unit {0} };
}

/// Callers trade nothing.
pub struct Nothing;

impl Gain<Stage, u64> for Nothing {
    ghost use base.Fml.{ftrue};

    ghost after = { λ names about answer. ftrue };
}

/// The list of entries for which a publish stands, the oldest first. Each call picks it, for contracts alone.
pub trait Stands {
    ghost use Rattle.std.specs.Prelude.{List};
    ghost use Rattle.chorus_entry.specs.declared.entry.Entry.{Entry};

    ghost entries: { List Entry };
}

impl Stands for Brand {
    ghost use Rattle.std.specs.Prelude.{[]};

    ghost entries = { [] };
}

/// The step that adds a cell.
pub struct Claim;

impl Play<Stage, u64> for Claim {
    ghost use Rattle.chorus_board.specs.Law.{claims};

    ghost then = { claims };
}

impl Plain<(), Stage, u64> for Claim {
    ghost use Rattle.std.specs.Prelude.{None};
    ghost use Rattle.chorus_board.specs.Law.{no_stage};

    ghost ask = { λ _. no_stage };

    ghost state = { λ _. None };
}

/// The step that puts a stage with that list behind the others.
pub struct Extend<X> {
    stands: PhantomData<X>,
}

impl<X> Play<Stage, u64> for Extend<X> {
    ghost use Rattle.chorus_board.specs.Law.{extends};

    ghost then = { extends };
}

/// The pen is the one of the stage behind it.
impl<X: Stands> Plain<Pen, Stage, u64> for Extend<X> {
    ghost use Rattle.std.specs.Prelude.{None};

    ghost ask = { λ pen. record { entries = X.entries; next = pen.nib.key } };

    ghost state = { λ _. None };
}

/// The step that changes nothing.
pub struct Confirm;

impl Play<Stage, u64> for Confirm {
    ghost use Rattle.chorus_board.specs.Law.{confirms};

    ghost then = { confirms };
}

impl Plain<(), Stage, u64> for Confirm {
    ghost use Rattle.std.specs.Prelude.{None};
    ghost use Rattle.chorus_board.specs.Law.{no_stage};

    ghost ask = { λ _. no_stage };

    ghost state = { λ _. None };
}

/// The pen of a new cell, and the number that was found in the word. Where that was 0 it is the first cell that was added.
fn new_pen(head: &Head, front: &Witness) -> (u64, Pen)
    requires { head.now ≡ head_of front.now.book }
    ensures book { result.1.book ≡ front.now.book }
    ensures pen { result.1.nib ≡ nib may_write result.1.nib.key 1 }
    ensures first { result.0 ≡ 0 → result.1.nib.key ≡ 2 }
{
    let mut seen = front.again();
    let mut offer: Offer<Stage, u64, Law, Nothing> = seen.plain::<Nothing, (), Claim>(&());
    let mut pen = seen.no_pen();
    let found = head.compare_exchange::<Claim, Nothing>(0, 1, &mut seen, &mut offer, &mut pen);
    let word: Head = Word::tracked(1, &mut pen);
    drop(word);
    (found, pen)
}

/// The author of a history that stands for other entries makes it stand for the list that was picked.
pub(crate) fn bring_to<X: Stands>(head: &Head, front: &mut Witness, author: &mut Pen)
    requires head { head.now ≡ head_of front.old.book }
    requires author { IsAuthor author.old.book author.old.nib front.old.book front.old.log }
    requires longer { IsPrefix (entries_in front.old.log) X.entries }
    ensures book { front.new.book ≡ front.old.book }
    ensures author { IsAuthor author.new.book author.new.nib front.new.book front.new.log }
    ensures entries { entries_in front.new.log ≡ X.entries }
{
    let (_, next) = new_pen(head, front);
    let mut offer: Offer<Stage, u64, Law, Nothing> = front.plain::<Nothing, Pen, Extend<X>>(&next);
    head.compare_exchange::<Extend<X>, Nothing>(0, 1, front, &mut offer, author);
    *author = next;
}

/// What a reader has seen of the history is a beginning of what its author has.
pub(crate) fn covers(head: &Head, front: &Witness, author: &mut Pen, heard: &Witness)
    requires head { head.now ≡ head_of front.now.book }
    requires author { IsAuthor author.old.book author.old.nib front.now.book front.now.log }
    requires book { heard.now.book ≡ front.now.book }
    ensures covered { IsPrefix (entries_in heard.now.log) (entries_in front.now.log) }
    ensures author { author.new ≡ author.old }
{
    let mut both = front.again();
    both.learn(heard);
    let mut offer: Offer<Stage, u64, Law, Nothing> = both.plain::<Nothing, (), Confirm>(&());
    head.compare_exchange::<Confirm, Nothing>(0, 1, &mut both, &mut offer, author);
}

/// A new history, which stands for no entries, its word, and its author's pen. Where another author had opened it, which no code
/// does, it answers want of memory.
pub(crate) fn open_history() -> Result<(Head, Witness, Pen), AllocError>
    ensures head { IfOk result (λ h. h.0 ≡ head_of h.1.book) }
    ensures author { IfOk result (λ h. IsAuthor h.2.book h.2.nib h.1.book h.1.log) }
    ensures none { IfOk result (λ h. entries_in h.1.log ≡ []) }
{
    let (front, mut first, _second) = Seen::open(Start::alone(), 0, 0);
    let head = Word::tracked(0, &mut first);
    let (found, author) = new_pen(&head, &front);
    if found != 0 {
        return Err(AllocError);
    }
    Ok((head, front, author))
}
