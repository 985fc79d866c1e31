// What the solver's functions share: the limits of a stack's channels, what is worked out of them once for all spreads, the windows of its strips in a spread, and
// the table of spans.
#![tactic(auto)]

ghost use Rattle.std.specs.Prelude.{◌≡◌, ◌*◌, ◌≤◌, ◌<◌};
ghost use Rattle.stack.specs.Sizes.{strips_held, totals_held};
ghost use Rattle.spans.specs.Spans.{cut, shift_on, shift_back};
ghost use Rattle.arrays.specs.Arrays.{bias, greatest_end, low_in, high_in, span_at, span_put, ShiftAsks};

use spans::Span;
use stack::Stack;

// The least and the greatest offset for each separation from 0 on, raised by Stack::BIAS. Two rows, each stated by an equation of `LimitsOf` (crate channel). One row of
// pairs was measured: tables of stacks with strips held take 1.6 % more instructions.
#[derive(Clone, Copy)]
pub struct ChannelLimits {
    pub low: [u64; Stack::SEPARATIONS],
    pub high: [u64; Stack::SEPARATIONS],
}

// The positions in a window that are within the limit (low, high) of some position in s.
fn shifted(s: Span, low: u64, high: u64, window: Span) -> Span
    requires starts { s.from ≤ strips_held * bias }
    requires ends { s.upto ≤ bias }
    requires low { low ≤ 2 * bias }
    requires high { high ≤ 2 * bias }
    ensures { result ≡ cut window (shift_on bias low high s) }
{
    Span {
        from: window.from.max((s.from + low).saturating_sub(Stack::BIAS)),
        upto: window.upto.min((s.upto + high).saturating_sub(Stack::BIAS)),
    }
}

impl ChannelLimits {
    // The positions in the window of the strip above at a separation, for the strip below in s.
    pub fn forward(&self, q: usize, s: Span, window: Span) -> Span
        requires { ShiftAsks self.now q s }
        ensures { result ≡ cut window (shift_on bias (low_in self.now q) (high_in self.now q) s) }
    {
        shifted(s, self.low[q], self.high[q], window)
    }

    // The positions in the window of the strip below at a separation, for the strip above in s. Seen from above an offset is the other way round, so that what the
    // greatest leaves of twice the bias is the least.
    #[tactic(auto, using(crate::proofs::Shifts::shifted_back))]
    pub fn backward(&self, q: usize, s: Span, window: Span) -> Span
        requires { ShiftAsks self.now q s }
        ensures { result ≡ cut window (shift_back bias (low_in self.now q) (high_in self.now q) s) }
    {
        let low = 2 * Stack::BIAS - self.high[q];
        let high = 2 * Stack::BIAS - self.low[q];
        shifted(s, low, high, window)
    }
}

pub type StackLimits = [ChannelLimits; Stack::MAX_CHANNELS];

// What holds for every spread: of each channel the last separation of use and the least open one, of each strip the sum of the last separations above it. Three rows,
// since the last separations are handed over as a row, and each of the others is worked out whole from it.
#[derive(Clone, Copy)]
pub struct Plan {
    pub lasts: [usize; Stack::STRIPS],
    pub leasts: [usize; Stack::STRIPS],
    pub above: [usize; Stack::STRIPS],
}

pub type Windows = [Span; Stack::STRIPS];

// The stack that a spread is worked out for: its channels' limits and their plan, its strips' windows, and how many channels it has. Channel i lies under
// strip i + 1.
#[derive(Clone, Copy)]
pub struct Given {
    pub limits: StackLimits,
    pub plan: Plan,
    pub windows: Windows,
    pub channels: usize,
}

impl Given {
    // No channel.
    pub const NONE: Given = Given {
        limits: [ChannelLimits {
            low: [0; Stack::SEPARATIONS],
            high: [0; Stack::SEPARATIONS],
        }; Stack::MAX_CHANNELS],
        plan: Plan {
            lasts: [0; Stack::STRIPS],
            leasts: [0; Stack::STRIPS],
            above: [0; Stack::STRIPS],
        },
        windows: [Span { from: 0, upto: 0 }; Stack::STRIPS],
        channels: 0,
    };
}

// A strip's spans, with a place for each total. Positions fit 32 bits, and so do the ends of their spans. Two rows: one of pairs would need a second struct
// of two ends, for those of Span have 64 bits, and the same casts.
#[derive(Clone, Copy)]
pub struct StripSpans {
    pub from: [u32; Stack::TOTALS],
    pub upto: [u32; Stack::TOTALS],
}

impl StripSpans {
    // Every span empty.
    pub const NONE: StripSpans = StripSpans {
        from: [0; Stack::TOTALS],
        upto: [0; Stack::TOTALS],
    };

    // The span for a total.
    pub fn at(&self, v: usize) -> Span
        requires { v < totals_held }
        ensures { result ≡ span_at self.now v }
    {
        Span {
            from: u64::from(self.from[v]),
            upto: u64::from(self.upto[v]),
        }
    }

    // Writes the span for a total.
    pub fn put(&mut self, v: usize, span: Span)
        requires total { v < totals_held }
        requires start { span.from ≤ greatest_end }
        requires end { span.upto ≤ greatest_end }
        ensures { self.new ≡ span_put self.old v span }
    {
        self.from[v] = span.from as u32;
        self.upto[v] = span.upto as u32;
    }
}

// The spans of each strip. The table is no part of Given, though most functions take both: a loop that writes the table only reads what is given.
pub type SpanTable = [StripSpans; Stack::STRIPS];

// The growing ends of the windows, raised by the bias.
pub type WindowGrowths = [Option<u64>; Stack::STRIPS];

// The growing ends of a strip's spans, with a place for each total: raised by the bias, 0 for none. Options were tried, of 16 bytes each: tables of stacks with strips
// held took 2 to 8 % more instructions.
pub type StripGrowths = [u64; Stack::TOTALS];
