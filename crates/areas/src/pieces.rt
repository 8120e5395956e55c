// What an order shows from one of its pairs to the next, and beyond them, on one side of the price. Side and price go with
// each pair as plain parameters: a struct of the two would be taken apart in every function.
ghost use Rattle.std.specs.Prelude.{◌≡◌, ◌*◌, ◌^◌, ◌<◌, ◌≤◌, drop};
ghost use Rattle.areas.specs.Runs.{piece_ticks, piece_sum, row_sum, flat_ticks};
ghost use Rattle.curves.specs.Views.{point};

use crate::runs::Run;
use crate::slopes::Line;
use crate::stretches::Ticks;
use curves::pairs::Pair;
use curves::sides::Side;
use curves::ticks::Tick;

// The ticks of a piece that lie beyond the price. A buy's are counted down from q, a sell's up from p.
fn piece_ticks(side: Side, p: Pair, q: Pair, price: Tick) -> Ticks
    ensures { result.count ≡ piece_ticks side (point p) (point q) price.value }
{
    let count = match side {
        Side::Buy => q.tick.saturating_sub(price.get().max(p.tick)),
        Side::Sell => q.tick.min(price.get()).saturating_sub(p.tick),
    };
    Ticks { count }
}

// The sum over the piece from p to q, as far as it lies beyond the price. Pairs out of order would have no ticks between
// them, so there any width will do.
fn piece<R: Run>(side: Side, p: Pair, q: Pair, price: Tick) -> u64
    ensures is { result ≡ piece_sum side R.way (point p) (point q) price.value }
    ensures fits { result ≤ 27000120000000000 }
{
    let ticks = piece_ticks(side, p, q, price);
    let line = Line {
        width: q.tick.saturating_sub(p.tick).max(1),
        height: p.volume.abs_diff(q.volume),
    };
    ticks.showing(p.volume.min(q.volume)) + R::climb(line, ticks)
}

// The pairs to which the pieces run. A slice: `skip` would count at each of them.
fn after_first(pairs: &[Pair]) -> &[Pair]
    ensures { result.now ≡ drop 1 pairs.now }
{
    &pairs[pairs.len().min(1)..]
}

// The sum over all pieces.
pub(crate) fn pieces<R: Run>(side: Side, pairs: &[Pair], price: Tick) -> u64
    requires { row_sum side R.way pairs.now price.value < 2 ^ 64 }
    ensures { result ≡ row_sum side R.way pairs.now price.value }
{
    pairs
        .iter()
        .zip(after_first(pairs))
        .map(|(p, q)| piece::<R>(side, *p, *q, price))
        .sum()
}

// A buy shows the volume of its first pair up to there, a sell that of its last pair from there on.
pub(crate) fn flat(side: Side, end: Pair, price: Tick) -> u64
    ensures is { result ≡ end.volume * flat_ticks side (point end) price.value }
    ensures fits { result ≤ 30000000000 }
{
    let count = match side {
        Side::Buy => end.tick.saturating_sub(price.get()),
        Side::Sell => price.get().saturating_sub(end.tick),
    };
    Ticks { count }.showing(end.volume)
}
