//! The list's length, which is a word, and beginnings of the list that were seen.

ghost use Rattle.std.specs.Prelude.{◌≡◌, ◌<◌, ◌^◌, ◌++◌, ◌∷◌, [], None, length, MatchBool};
ghost use mathlib.Core.List.{IsPrefix};
ghost use Rattle.qx_tied.specs.Fronts.{IsLonger};
ghost use Rattle.qx_tied.specs.inner.Rules.{head_of};

use logbook::{Gain, Offer, Plain, Play, Rule, Seen, Start, Word};
use std::marker::{Brand, Model, PhantomData};

/// The list's rule: the word is its length.
pub struct Law;

impl<E> Rule<E, u64> for Law {
    ghost use Rattle.std.specs.Prelude.{[]};
    ghost use base.Fml.{ftrue};
    ghost use Rattle.qx_tied.specs.inner.Rules.{IsKept};

    ghost holds = { λ cells log. IsKept cells log };

    ghost first = { [] };

    ghost hinted = { λ n log. Unit {0} };

    ghost shows = { λ log. [] };

    ghost keeps = { λ names log. ftrue };

    ghost moves = { λ ask before after answer. Unit {0} };
}

/// Who adds an entry trades nothing for it.
pub struct Nothing;

impl<E> Gain<E, u64> for Nothing {
    ghost use base.Fml.{ftrue};

    ghost after = { λ names about answer. ftrue };
}

/// The move that adds an entry.
pub struct Add;

impl<E> Play<E, u64> for Add {
    ghost use Rattle.qx_tied.specs.inner.Rules.{Adds};

    ghost then = { Adds };
}

/// Which list it is. Each call of a program picks it.
pub trait Naming {
    ghost use Rattle.logbook.specs.Pages.{Book};

    ghost book: { Book };
}

impl Naming for Brand {
    ghost book = { record { number = 0; log_name = 0; cells_name = 0 } };
}

/// A list with no entry, which has no name yet.
#[derive(Drop)]
pub struct Opened<E> {
    head: Word<E, u64, Law>,
    seen: Seen<E, u64, Law>,
    pub ghost empty: { seen.log ≡ [] },
    pub ghost head_is: { head ≡ head_of seen.book },
}

impl<E> Opened<E> {
    pub fn new() -> Opened<E> {
        let (seen, mut first, _second) = Seen::open(Start::alone(), 0, 0);
        Opened {
            head: Word::tracked(0, &mut first),
            seen,
        }
    }

    /// The list's word under a name, and the front that has seen nothing.
    pub fn named<J: Naming>(self) -> (Head<E, J>, Front<E, J>)
        requires { self.seen.book ≡ J.book }
        ensures { result.1 ≡ [] }
    {
        let Opened { head, seen } = self;
        (
            Head {
                word: head,
                of: PhantomData,
            },
            Front {
                len: 0,
                seen,
                of: PhantomData,
            },
        )
    }
}

/// The word that is the length of the list.
#[derive(Drop)]
pub struct Head<E, J: Naming> {
    word: Word<E, u64, Law>,
    of: PhantomData<J>,
    ghost head_is: { word ≡ head_of J.book },
}

/// A beginning of the list that was seen, which contracts see as its entries. It takes 8 bytes.
#[derive(Drop)]
pub struct Front<E, J: Naming> {
    len: u64,
    seen: Seen<E, u64, Law>,
    of: PhantomData<J>,
}

impl<E, J: Naming> Model for Front<E, J> {
    ghost use Rattle.std.specs.Prelude.{◌≡◌, List, length};

    ghost Value = { List E };

    ghost view = { λ f. f.seen.log };

    ghost invariant = { λ f. (f.len ≡ length f.seen.log) × (f.seen.book ≡ J.book) };
}

impl<E, J: Naming> Front<E, J> {
    /// How many entries it has.
    pub fn len(&self) -> u64
        ensures { result ≡ length self.now }
    {
        self.len
    }

    /// A copy.
    pub fn again(&self) -> Front<E, J>
        ensures { result ≡ self.now }
    {
        Front {
            len: self.len,
            seen: self.seen.again(),
            of: PhantomData,
        }
    }

    /// Whether it begins another front. Of two beginnings of one list the shorter begins the longer.
    pub fn begins(&self, other: &Front<E, J>) -> bool
        ensures { MatchBool result (IsPrefix self.now other.now) (length other.now < length self.now) }
    {
        let mut both = self.seen.again();
        both.learn(&other.seen);
        if other.len < self.len {
            return false;
        }
        true
    }

    /// Adds an entry to all that was seen, and says whether it did. It did not where the list is longer.
    pub fn add<X, M: Plain<X, E, u64>>(&mut self, head: &Head<E, J>, about: &X) -> bool
        requires room { length self.old < 2 ^ 62 }
        requires plain { M.state about.now ≡ None }
        ensures { MatchBool result (self.new ≡ self.old ++ M.ask about.now ∷ []) (IsLonger self.old self.new) }
    {
        let mut offer: Offer<E, u64, Law, Nothing> = self.seen.plain::<Nothing, X, M>(about);
        let mut pen = self.seen.no_pen();
        let len = self.len;
        let found = head
            .word
            .compare_exchange::<Add, Nothing>(len, len + 1, &mut self.seen, &mut offer, &mut pen);
        self.len = if found == len { len + 1 } else { found };
        found == len
    }
}
