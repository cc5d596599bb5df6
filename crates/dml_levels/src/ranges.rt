ghost use Rattle.std.specs.Prelude.{◌≡◌, ◌<◌, [], ◌∷◌, ◌++◌, length};
ghost use Rattle.dml_types.specs.Job.{any_shares, shares, span};
ghost use Rattle.std.specs.List.{list_any};
ghost use Rattle.dml_levels.specs.Touched.{some_spans};

use arrayvec::ArrayVec;
use dml_types::Span;
use std::marker::Model;

/// At most two ranges of addresses.
#[derive(Debug, Drop)]
pub struct Spans {
    pub list: ArrayVec<Span, 2>,
}

impl Model for Spans {
    ghost use Rattle.std.specs.Prelude.{List};
    ghost use Rattle.dml_types.specs.declared.spans.Span.{Span};

    ghost Value = { List Span };

    ghost view = { λ spans. spans.list.items };
}

impl Spans {
    /// No range.
    pub(crate) fn none() -> Spans
        ensures { result ≡ [] }
    {
        Spans {
            list: ArrayVec::new(),
        }
    }

    /// The range of `len` bytes from `start` on, unless it is empty.
    pub(crate) fn one(start: u64, len: u32) -> Spans
        ensures { result ≡ some_spans (span start len ∷ []) }
    {
        let mut spans = Spans::none();
        spans.add(start, len);
        spans
    }

    /// Two ranges of `len` bytes each, unless they are empty.
    pub(crate) fn two(first: u64, second: u64, len: u32) -> Spans
        ensures { result ≡ some_spans (span first len ∷ span second len ∷ []) }
    {
        let mut spans = Spans::one(first, len);
        spans.add(second, len);
        spans
    }

    /// Appends a range, unless it is empty.
    fn add(&mut self, start: u64, len: u32)
        requires { length self.old < 2 }
        ensures { self.new ≡ self.old ++ some_spans (span start len ∷ []) }
    {
        if len > 0 {
            self.list.push(Span { start, len });
        }
    }

    /// How many they are.
    pub(crate) fn len(&self) -> usize
        ensures { result ≡ length self.now }
    {
        self.list.len()
    }

    /// Whether a range of these shares a byte with one of those.
    pub(crate) fn share_with(&self, those: &Spans) -> bool
        ensures { result ≡ any_shares self.now those.now }
    {
        self.list.iter().any(|a| those.share(a))
    }

    /// Whether a range of these shares a byte with this one.
    fn share(&self, a: &Span) -> bool
        ensures { result ≡ list_any (shares a.now) self.now }
    {
        self.list.iter().any(|b| shares(a, b))
    }
}

/// Whether two ranges share a byte.
fn shares(a: &Span, b: &Span) -> bool
    ensures { result ≡ shares a.now b.now }
{
    let (low, high) = if a.start <= b.start { (a, b) } else { (b, a) };
    (high.start - low.start < u64::from(low.len)) & (high.len > 0)
}
