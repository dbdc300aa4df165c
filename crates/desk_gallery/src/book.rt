//! One list of changes for all threads, which the holder of one token lengthens. It exists in proofs alone: a `SeenPrefix` is what is
//! shown in some beginning of it, and no beginning shows more than the whole does.
//!
//! Each entry of the log uses up a key. Whoever writes holds the key that is next, so no entry but its own can follow, and what
//! anybody has seen of the log is a beginning of what the writer has.
ghost use Rattle.std.specs.Prelude.{◌≡◌, ℕ, ◌+◌, ◌<◌, ◌≤◌, ◌^◌, ◌++◌, ◌∷◌, ◌⊎◌, [], length, IsTrue};
ghost use mathlib.Core.List.{IsPrefix};
ghost use Rattle.logbook.specs.Pages.{may_write};
ghost use Rattle.desk_gallery.specs.Rules.{head_of, key_after, lent_change, shown_of, HasAdded};
ghost use Rattle.desk_gallery.specs.Shelves.{IsMark};

use desk_model::command::Command;
use logbook::{Gain, Offer, Pen, Plain, Play, Rule, Seen, Start, Word};
use std::marker::{Brand, Model, PhantomData};

/// An entry of the log: a change that is appended, or none where all that is pending is shown; the key that it uses up, and the
/// key that the next one uses up. No value of it is made.
#[derive(Drop)]
pub struct LogEntry {
    pub what: Option<Command>,
    pub by: u64,
    pub next: u64,
}

/// The rule of the log: the key of each entry is used up.
pub struct Law;

impl Rule<LogEntry, u64> for Law {
    ghost use Rattle.std.specs.Prelude.{[]};
    ghost use base.Fml.{ftrue};
    ghost use Rattle.desk_gallery.specs.Rules.{IsKept};

    ghost holds = { λ cells log. IsKept cells log };

    ghost first = { [] };

    ghost hinted = { λ n log. Unit {0} };

    ghost shows = { λ log. [] };

    ghost keeps = { λ names log. ftrue };

    ghost moves = { λ ask before after answer. Unit {0} };
}

/// Callers trade nothing.
pub struct Nothing;

impl Gain<LogEntry, u64> for Nothing {
    ghost use base.Fml.{ftrue};

    ghost after = { λ names about answer. ftrue };
}

/// A step that makes a key.
pub struct Make;

impl Play<LogEntry, u64> for Make {
    ghost use Rattle.desk_gallery.specs.Rules.{Makes};

    ghost then = { Makes };
}

/// A step that looks, with a key in hand.
pub struct Look;

impl Play<LogEntry, u64> for Look {
    ghost use Rattle.desk_gallery.specs.Rules.{Looks};

    ghost then = { Looks };
}

impl Plain<u64, LogEntry, u64> for Look {
    ghost use Rattle.std.specs.Prelude.{None};

    ghost ask = { λ n. record { what = None; by = n; next = n } };

    ghost state = { λ n. None };
}

/// A step that uses up the key in hand and adds an entry.
pub struct Add;

impl Play<LogEntry, u64> for Add {
    ghost use Rattle.desk_gallery.specs.Rules.{Adds};

    ghost then = { Adds };
}

/// The entry of a change, or of none, by the key that it uses up and the next one.
#[derive(Drop)]
pub struct Adding<'a> {
    what: Option<&'a Command>,
    by: &'a Pen,
    next: &'a Pen,
}

impl<'a> Plain<Adding<'a>, LogEntry, u64> for Add {
    ghost use Rattle.std.specs.Prelude.{None};
    ghost use Rattle.desk_gallery.specs.Rules.{lent_change};

    ghost ask = { λ a. record { what = lent_change a.what; by = a.by.now.nib.key; next = a.next.now.nib.key } };

    ghost state = { λ a. None };
}

/// Identifies one gallery: its list of changes with the first key, the counts of its seats, the
/// desk before the changes, what is known about the store and the clerk from the start, and which
/// commands may be carried out. Each call of a program has an identity of its own.
pub trait GalleryId {
    ghost use Rattle.std.specs.Prelude.{ℕ};
    ghost use Rattle.logbook.specs.Pages.{Book};
    ghost use Rattle.desk_model.specs.declared.command.Command.{Command};
    ghost use Rattle.desk_model.specs.claim.Desk.{Desk};
    ghost use Rattle.desk_gallery.specs.claim.Begun.{Beginning};
    ghost use Rattle.desk_gallery.specs.Naming.{Counts};

    ghost book: { Book };

    ghost root: { ℕ };

    // the ledgers of the answers that its seats were given
    ghost counts: { Counts };

    ghost first: { Desk };

    // what the clerk's promise on its store rests on
    ghost sound: { Type 0 };

    // what is known of the clerk with whom it begins
    ghost begins: { Beginning };

    // what is known of each command that is carried out
    ghost asked: { Command → Type 0 };
}

impl GalleryId for Brand {
    ghost use Rattle.desk_gallery.specs.Begun.{nobody};
    ghost use Rattle.desk_gallery.specs.Naming.{no_counts};
    ghost use Rattle.desk_gallery.specs.Rules.{no_desk};

    ghost book = { record { number = 0; log_name = 0; cells_name = 0 } };

    ghost root = { 0 };

    ghost counts = { no_counts };

    ghost first = { no_desk };

    ghost sound = { ⊥ };

    ghost begins = { nobody };

    ghost asked = { λ _. ⊥ };
}

/// A new key.
fn make_key(head: &Word<LogEntry, u64, Law>, seen: &Seen<LogEntry, u64, Law>) -> Pen
    requires { head.now ≡ head_of seen.now.book }
    ensures book { result.book ≡ seen.now.book }
    ensures right { result.nib.right ≡ may_write }
{
    let mut seen = seen.again();
    let mut offer: Offer<LogEntry, u64, Law, Nothing> = seen.plain::<Nothing, u64, Look>(&0);
    let mut pen = seen.no_pen();
    head.compare_exchange::<Make, Nothing>(0, 0, &mut seen, &mut offer, &mut pen);
    let _word: Word<LogEntry, u64, Law> = Word::tracked(0, &mut pen);
    pen
}

/// Adds an entry by the key in hand, and takes the next key.
fn add_entry(
    head: &Word<LogEntry, u64, Law>,
    seen: &mut Seen<LogEntry, u64, Law>,
    pen: &mut Pen,
    what: Option<&Command>,
)
    requires head { head.now ≡ head_of seen.old.book }
    requires book { pen.old.book ≡ seen.old.book }
    requires right { pen.old.nib.right ≡ may_write }
    ensures seen { seen.new.book ≡ seen.old.book }
    ensures pen { (pen.new.book ≡ seen.old.book) × (pen.new.nib.right ≡ may_write) }
    ensures added { (k : ℕ) → pen.old.nib.key ≡ key_after k seen.old.log
        → HasAdded k seen.old.log (lent_change what.entry) seen.new.log pen.new.nib.key }
{
    let next = make_key(head, seen);
    let asked = Adding {
        what,
        by: pen,
        next: &next,
    };
    let mut offer: Offer<LogEntry, u64, Law, Nothing> = seen.plain::<Nothing, Adding, Add>(&asked);
    head.compare_exchange::<Add, Nothing>(0, 0, seen, &mut offer, pen);
    *pen = next;
}

/// An empty list, which has no name yet.
#[derive(Drop)]
pub struct Opened {
    head: Word<LogEntry, u64, Law>,
    seen: Seen<LogEntry, u64, Law>,
    pen: Pen,
    pub ghost empty: { seen.log ≡ [] },
    pub ghost head_is: { head ≡ head_of seen.book },
    pub ghost pen_is: { pen.book ≡ seen.book },
    pub ghost writes: { pen.nib.right ≡ may_write },
}

impl Opened {
    pub fn new() -> Opened {
        let (seen, mut first, _second) = Seen::open(Start::alone(), 0, 0);
        let head = Word::tracked(0, &mut first);
        let pen = make_key(&head, &seen);
        Opened { head, seen, pen }
    }
}

/// A beginning of some log with the number of changes shown in it, as the copies of a gallery hold it.
#[derive(Drop)]
pub struct Mark {
    pub number: u128,
    pub seen: Seen<LogEntry, u64, Law>,
}

impl Mark {
    /// The same beginning.
    pub fn again(&self) -> Mark
        ensures { result ≡ self.now }
    {
        Mark {
            number: self.number,
            seen: self.seen.again(),
        }
    }
}

/// What is shown in a beginning of the log. Contracts see it as the changes.
#[derive(Drop)]
pub struct SeenPrefix<J: GalleryId> {
    number: u128,
    seen: Seen<LogEntry, u64, Law>,
    of: PhantomData<J>,
}

impl<J: GalleryId> Model for SeenPrefix<J> {
    ghost use Rattle.std.specs.Prelude.{◌≡◌, List, length};
    ghost use Rattle.desk_model.specs.declared.command.Command.{Command};
    ghost use Rattle.desk_gallery.specs.Rules.{shown_of};

    ghost Value = { List Command };

    ghost view = { λ p. shown_of J.root p.seen.log };

    ghost invariant = { λ p. (p.number ≡ length (shown_of J.root p.seen.log)) × (p.seen.book ≡ J.book) };
}

impl<J: GalleryId> SeenPrefix<J> {
    /// A beginning that a copy of the gallery holds.
    pub fn of(mark: Mark) -> SeenPrefix<J>
        requires { IsMark J.book J.root mark }
        ensures { result ≡ shown_of J.root mark.seen.log }
    {
        let Mark { number, seen } = mark;
        SeenPrefix {
            number,
            seen,
            of: PhantomData,
        }
    }

    /// How many changes it has.
    pub fn len(&self) -> u128
        ensures { result ≡ length self.now }
    {
        self.number
    }

    /// Whether it is no longer than another, which it then begins; else the other begins it.
    pub fn begins(&self, other: &SeenPrefix<J>) -> bool
        ensures yes { IsTrue result → IsPrefix self.now other.now }
        ensures no { length other.now < length self.now ⊎ IsTrue result }
        ensures other { IsPrefix other.now self.now ⊎ IsTrue result }
    {
        let mut both = self.seen.again();
        both.learn(&other.seen);
        self.number <= other.number
    }
}

/// The whole list, with the one token that lengthens it. Contracts see it as what is shown, and that with what is pending after it.
#[derive(Drop)]
pub struct Whole<J: GalleryId> {
    head: Word<LogEntry, u64, Law>,
    pen: Pen,
    seen: Seen<LogEntry, u64, Law>,
    number: u128,
    of: PhantomData<J>,
}

impl<J: GalleryId> Model for Whole<J> {
    ghost use Rattle.std.specs.Prelude.{◌≡◌, List, length};
    ghost use Rattle.logbook.specs.Pages.{may_write};
    ghost use Rattle.desk_model.specs.declared.command.Command.{Command};
    ghost use Rattle.desk_gallery.specs.Rules.{head_of, key_after, lists_of};

    ghost Value = { List Command × List Command };

    ghost view = { λ w. lists_of J.root w.seen.log };

    ghost invariant = { λ w. (w.seen.book ≡ J.book) × (w.head ≡ head_of J.book)
        × (w.pen.book ≡ J.book) × (w.pen.nib.right ≡ may_write) × (w.pen.nib.key ≡ key_after J.root w.seen.log)
        × (w.number ≡ length (lists_of J.root w.seen.log).1) };
}

impl<J: GalleryId> Whole<J> {
    /// The list under a name: nothing is in it.
    pub fn new(opened: Opened) -> Whole<J>
        requires book { opened.seen.book ≡ J.book }
        requires root { opened.pen.nib.key ≡ J.root }
        ensures { result ≡ ([], []) }
    {
        let Opened { head, seen, pen } = opened;
        Whole {
            head,
            pen,
            seen,
            number: 0,
            of: PhantomData,
        }
    }

    /// How many changes it has, those that are pending too.
    pub fn len(&self) -> u128
        ensures { result ≡ length self.now.1 }
    {
        self.number
    }

    /// All of it, for a copy of the gallery, while nothing is pending.
    pub fn mark(&self) -> Mark
        requires { self.now.0 ≡ self.now.1 }
        ensures mark { IsMark J.book J.root result }
        ensures changes { shown_of J.root result.seen.log ≡ self.now.0 }
    {
        Mark {
            number: self.number,
            seen: self.seen.again(),
        }
    }

    /// What is shown begins with what anybody has seen shown, wherever that came from.
    pub fn begins_with(&mut self, other: &SeenPrefix<J>)
        ensures begins { IsPrefix other.now self.new.0 }
        ensures same { self.new ≡ self.old }
    {
        let mut seen = self.seen.again();
        seen.learn(&other.seen);
        let mut offer: Offer<LogEntry, u64, Law, Nothing> = seen.plain::<Nothing, u64, Look>(&0);
        self.head
            .compare_exchange::<Look, Nothing>(0, 0, &mut seen, &mut offer, &mut self.pen);
    }

    /// Puts a change after what is pending.
    pub fn append(&mut self, command: &Command)
        requires { length self.old.1 + 1 < 2 ^ 128 }
        ensures { self.new ≡ (self.old.0, self.old.1 ++ command.now ∷ []) }
    {
        add_entry(&self.head, &mut self.seen, &mut self.pen, Some(command));
        self.number += 1;
    }

    /// Shows what is pending. What was shown once stays shown.
    pub fn show(&mut self)
        ensures { self.new ≡ (self.old.1, self.old.1) }
    {
        add_entry(&self.head, &mut self.seen, &mut self.pen, None);
    }
}
