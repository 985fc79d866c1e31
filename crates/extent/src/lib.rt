// How far a stack's strips reach: the first spread, the greatest position of a strip that is held, and the lengths together.
#![tactic(auto)]

ghost use Rattle.std.specs.Prelude.{◌≡◌, ◌≤◌, length};
ghost use Rattle.std.specs.Fn.{FnReturnsAt};
ghost use Rattle.std.specs.List.{sum_by};
ghost use Rattle.stack.specs.Stack.{first_spread, sum};
ghost use Rattle.stack.specs.Value.{strip_of, stack_of};
ghost use Rattle.stack.specs.Lengths.{lengths, greatest_position, last_position};
ghost use Rattle.stack.specs.Made.{NumberOf};
ghost use Rattle.stack.specs.declared.Strip.{Strip as StripStruct};
ghost use Rattle.extent.specs.Extent.{StripsOf, Greatest};

use stack::{Stack, Strip};

// The strips that a stack uses.
#[tactic(auto, using(crate::proofs::Folds::strips_used))]
fn strips(stack: &Stack) -> &[Strip]
    requires { stack.now.count ≤ 8 }
    ensures { StripsOf stack.now result.now }
{
    &stack.strips[..=stack.count]
}

// The greatest, over strips, of a number that each has; 0 where there is none.
fn greatest<F: Fn(&Strip) -> u64>(strips: &[Strip], number: F) -> u64
    requires { F.IsAlwaysCallable number }
    ensures { Greatest (FnReturnsAt F.Fn number) strips.now result }
{
    let mut most = 0;
    // A chain of `map` and `max` was tried: the search does not prove it.
    for strip in strips {
        most = most.max(number(strip));
    }
    most
}

// A strip's greatest position; 0 where it is free, as the definition has it.
#[tactic(auto, unfolding(stack::specs::Value::window_of, stack::specs::Lengths::greatest_position))]
fn greatest_position(strip: Strip) -> u64
    ensures { NumberOf (greatest_position (strip_of strip).window) result }
{
    match strip.window {
        Some(window) => u64::from(window.greatest.0),
        None => 0,
    }
}

// The first spread: the greatest length with the least position.
pub fn first_spread(stack: &Stack) -> u64
    requires { stack.now.count ≤ 8 }
    ensures { NumberOf (first_spread (stack_of stack.now).strips) result }
{
    greatest(strips(stack), |strip| strip.reach())
}

// The greatest position of a strip that is held; 0 where none is, as the definition has it: it is a term of a sum (`widest`).
pub fn last_position(stack: &Stack) -> u64
    requires { stack.now.count ≤ 8 }
    ensures { NumberOf (last_position (stack_of stack.now).strips) result }
{
    greatest(strips(stack), |strip| greatest_position(*strip))
}

// The sum of few strips' lengths.
fn lengths_together(strips: &[Strip]) -> u64
    requires { length strips.now ≤ 9 }
    ensures { result ≡ sum_by (λ (s : StripStruct). s.length.0) strips.now }
{
    strips.iter().map(|strip| strip.length.0 as u64).sum()
}

// The sum of the strips' lengths.
#[tactic(auto, using(crate::proofs::Folds::lengths_are))]
pub fn lengths_sum(stack: &Stack) -> u64
    requires { stack.now.count ≤ 8 }
    ensures { result ≡ sum (lengths (stack_of stack.now).strips) }
{
    lengths_together(strips(stack))
}
