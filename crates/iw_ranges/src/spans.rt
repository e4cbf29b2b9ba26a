ghost use Rattle.std.specs.Prelude.{◌≡◌, ◌<◌, ◌≤◌, ◌+◌, ◌-◌, ◌^◌, ℕ, length, true, false, MatchBool, slice_index_or, nat_lt};
ghost use Rattle.std.specs.Bool.{OnTrue};
ghost use Rattle.std.specs.VecDeque.{deque_len, deque_capacity};
ghost use Rattle.iw_ranges.specs.Spans.{in_spans, spans_past, first_end, IsFromStart, IsInOrder, IsFirstReaching};
ghost use Rattle.iw_ranges.specs.Spans.{add_span, merge_span};
ghost use Rattle.std.specs.Prelude.{take, drop, ◌++◌, [], ◌∷◌};

use std::alloc::Allocator;
use std::collections::VecDeque;

/// How many islands there may be.
const MAX_ISLANDS: usize = 1_024;

/// The most islands that memory is kept for once all but the first are given up: 512 octets.
const MAX_KEPT: usize = 32;

/// The places from `from` up to `to`.
#[derive(Clone, Copy)]
pub(crate) struct Span {
    pub(crate) from: u64,
    pub(crate) to: u64,
}

/// The first span that ends at `from` or past it, or the number of spans if there is none.
pub(crate) fn first_reaching<A: Allocator>(spans: &VecDeque<Span, A>, from: u64) -> usize
    requires { IsInOrder spans.now.items }
    ensures { IsFirstReaching spans.now.items from result }
{
    let count = spans.len();
    if count == 0 || from <= spans[0].to {
        return 0;
    }
    if count > 1 && from <= spans[1].to {
        return 1;
    }
    let last = spans[count - 1];
    if last.from <= from {
        return index_at_last(count, last.to, from);
    }
    spans.partition_point(
        |span: &Span| -> bool
            ensures { result ≡ nat_lt span.now.to from }
        { span.to < from },
    )
}

/// The same where the last of `count` spans, which ends at `end`, begins at `from` or before it.
#[inline(always)]
fn index_at_last(count: usize, end: u64, from: u64) -> usize
    requires { 0 < count }
    ensures past { end < from → result ≡ count }
    ensures reaches { from ≤ end → result + 1 ≡ count }
{
    if end < from { count } else { count - 1 }
}

/// Whether the places from `from` up to `to` touch none of the spans, of which that at `low` is the first that reaches
/// `from`.
pub(crate) fn is_apart<A: Allocator>(
    spans: &VecDeque<Span, A>,
    low: usize,
    from: u64,
    to: u64,
) -> bool
    requires order { IsInOrder spans.now.items }
    requires place { IsFirstReaching spans.now.items from low }
    requires some { from < to }
    ensures { MatchBool result (length (add_span from to spans.now.items) ≡ deque_len spans.now + 1)
        (length (add_span from to spans.now.items) ≤ deque_len spans.now) }
{
    low == spans.len() || to < spans[low].from
}

/// Whether there would be more than 1,024 islands with the places from `from` up to `to`. The first span is no island.
pub(crate) fn is_one_too_many<A: Allocator>(
    spans: &VecDeque<Span, A>,
    low: usize,
    from: u64,
    to: u64,
) -> bool
    requires order { IsInOrder spans.now.items }
    requires place { IsFirstReaching spans.now.items from low }
    requires some { from < to }
    requires few { length spans.now.items ≤ 1025 }
    ensures { MatchBool result (1025 < length (add_span from to spans.now.items))
        (length (add_span from to spans.now.items) ≤ 1025) }
{
    spans.len() > MAX_ISLANDS && is_apart(spans, low, from, to)
}

/// Makes one span of that at `low`, the places from `from` up to `to`, and all further spans that they touch.
#[inline(always)]
pub(crate) fn widen<A: Allocator>(spans: &mut VecDeque<Span, A>, low: usize, from: u64, to: u64)
    requires within { low < deque_len spans.old }
    requires touched { (d : Span) → (slice_index_or spans.old.items low d).from ≤ to }
    ensures items { spans.new.items ≡ take low spans.old.items ++ merge_span from to (drop low spans.old.items) }
    ensures capacity { deque_capacity spans.new ≡ deque_capacity spans.old }
    ensures len { deque_len spans.new ≤ deque_len spans.old }
{
    let first = spans[low];
    let mut joined = Span {
        from: first.from.min(from),
        to: first.to.max(to),
    };
    'merge: while low + 1 < spans.len() && spans[low + 1].from <= joined.to {
        if let Some(touched) = spans.remove(low + 1) {
            joined.from = joined.from.min(touched.from);
            joined.to = joined.to.max(touched.to);
        }
    }
    spans[low] = joined;
}

/// Whether there is no second span, or `to` lies before it.
#[inline(always)]
pub(crate) fn is_before_second<A: Allocator>(spans: &VecDeque<Span, A>, to: u64) -> bool
    requires { IsFromStart spans.now.items }
    ensures { OnTrue result
        ((p : ℕ) → first_end spans.now.items ≤ p → p ≤ to → in_spans p spans.now.items ≡ false) }
{
    spans.len() <= 1 || to < spans[1].from
}

/// Makes the first span, which begins at place 0, end at `to`, before all others.
#[inline(always)]
pub(crate) fn lengthen<A: Allocator>(spans: &mut VecDeque<Span, A>, to: u64)
    requires order { IsFromStart spans.old.items }
    requires free { (p : ℕ) → first_end spans.old.items ≤ p → p ≤ to → in_spans p spans.old.items ≡ false }
    requires further { first_end spans.old.items < to }
    ensures items { spans.new.items ≡ add_span (first_end spans.old.items) to spans.old.items }
    ensures end { first_end spans.new.items ≡ to }
    ensures few { length spans.new.items ≤ length spans.old.items }
{
    spans[0] = Span { from: 0, to };
}

/// Makes the last span, which ends at `from`, end at `to`.
#[inline(always)]
pub(crate) fn lengthen_last<A: Allocator>(spans: &mut VecDeque<Span, A>, from: u64, to: u64)
    requires order { IsFromStart spans.old.items }
    requires within { (p : ℕ) → in_spans p spans.old.items ≡ true → p < from }
    requires top { 0 < from → in_spans (from - 1) spans.old.items ≡ true }
    requires further { from < to }
    ensures items { spans.new.items ≡ add_span from to spans.old.items }
    ensures few { length spans.new.items ≤ length spans.old.items }
{
    let last = spans.len() - 1;
    let from = spans[last].from;
    spans[last] = Span { from, to };
}

/// Adds the places from `from` up to `to`.
pub(crate) fn join<A: Allocator>(spans: &mut VecDeque<Span, A>, low: usize, from: u64, to: u64)
    requires room { deque_len spans.old < deque_capacity spans.old }
    requires place { IsFirstReaching spans.old.items from low }
    ensures items { spans.new.items ≡ add_span from to spans.old.items }
    ensures capacity { deque_capacity spans.old ≤ deque_capacity spans.new }
    ensures len { deque_len spans.new ≤ deque_len spans.old + 1 }
{
    if low < spans.len() && spans[low].from <= to {
        widen(spans, low, from, to);
        return;
    }
    let _ = spans.insert(low, Span { from, to });
}

/// Drops the spans that end at `to` or before it.
#[inline]
pub(crate) fn forget<A: Allocator>(gone: &mut VecDeque<Span, A>, to: u64)
    ensures items { gone.new.items ≡ spans_past to gone.old.items }
    ensures capacity { deque_capacity gone.new ≡ deque_capacity gone.old }
    ensures len { deque_len gone.new ≤ deque_len gone.old }
{
    'passed: while !gone.is_empty() && gone[0].to <= to {
        let _ = gone.pop_front();
    }
}

/// Leaves one span, of the places before `to`. Memory for more than 32 spans is given back.
pub(crate) fn keep_before<A: Allocator>(spans: &mut VecDeque<Span, A>, to: u64)
    requires { IsFromStart spans.old.items }
    ensures { spans.new.items ≡ record { from = 0; to = to } ∷ [] }
{
    spans.truncate(1);
    if spans.capacity() > MAX_KEPT {
        spans.shrink_to_fit();
    }
    spans[0] = Span { from: 0, to };
}

/// Drops all spans, and gives back their memory.
pub(crate) fn clear<A: Allocator>(spans: &mut VecDeque<Span, A>)
    ensures items { spans.new.items ≡ [] }
    ensures memory { deque_capacity spans.new ≡ 0 }
{
    spans.clear();
    spans.shrink_to_fit();
}

/// Whether all places from `from` up to `to` lie in the spans, of which that at `low` is the first that reaches `from`.
pub(crate) fn holds_all<A: Allocator>(
    spans: &VecDeque<Span, A>,
    low: usize,
    from: u64,
    to: u64,
) -> bool
    requires order { IsInOrder spans.now.items }
    requires place { IsFirstReaching spans.now.items from low }
    requires some { from < to }
    ensures { MatchBool result ((p : ℕ) → from ≤ p → p < to → in_spans p spans.now.items ≡ true)
        ((p : ℕ) × (from ≤ p) × (p < to) × (in_spans p spans.now.items ≡ false)) }
{
    match spans.get(low) {
        Some(span) => span.from <= from && to <= span.to,
        None => false,
    }
}

/// Where the first span ends.
pub(crate) fn end_of_first<A: Allocator>(spans: &VecDeque<Span, A>) -> u64
    requires { IsFromStart spans.now.items }
    ensures { result ≡ first_end spans.now.items }
{
    spans[0].to
}
