//! What is put for each of several variables, with no loop if they are few.

ghost use Rattle.std.specs.Prelude.{◌≡◌, ◌+◌, ◌*◌, ◌≤◌, ◌++◌, ℕ, List, flat_map, length, take};
ghost use Rattle.etcs_vars.specs.Reading.{Sent};

use etcs_vars::Var;
use std::marker::PhantomData;

/// What is put for a variable and its number.
pub(crate) trait Put {
    /// How many bytes it takes at most.
    ghost room: { ℕ };

    ghost text: { Sent → List ℕ };

    /// Writes it at a place, and returns where it ends.
    fn put(place: &mut [u8], at: usize, var: Var, number: u64) -> usize
        requires { at + room ≤ length place.old }
        ensures len { length place.new ≡ length place.old }
        ensures most { result ≤ at + room }
        ensures bytes { take result place.new ≡ take at place.old ++ text (var, number) };
}

/// A way to put it for each of several.
pub(crate) trait PutEach<P: Put> {
    /// Writes it for each at a place, one after another, and returns where they end.
    fn put_each(place: &mut [u8], at: usize, sent: &[(Var, u64)]) -> usize
        requires { at + P.room * length sent.now ≤ length place.old }
        ensures len { length place.new ≡ length place.old }
        ensures most { result ≤ at + P.room * length sent.now }
        ensures bytes { take result place.new ≡ take at place.old ++ flat_map P.text sent.now };
}

/// By a loop.
pub(crate) struct Loop;

/// The first without a loop, and the others so.
pub(crate) struct First<Others> {
    others: PhantomData<Others>,
}

/// The first four without a loop.
pub(crate) type Four = First<First<First<First<Loop>>>>;

/// The first five without a loop. For more the code would be too long to be inlined.
pub(crate) type Five = First<Four>;

impl<P: Put> PutEach<P> for Loop {
    #[inline(never)]
    fn put_each(place: &mut [u8], at: usize, sent: &[(Var, u64)]) -> usize {
        let mut end = at;
        for pair in sent {
            end = P::put(place, end, pair.0, pair.1);
        }
        end
    }
}

impl<P: Put, Others: PutEach<P>> PutEach<P> for First<Others> {
    #[inline(always)]
    fn put_each(place: &mut [u8], at: usize, sent: &[(Var, u64)]) -> usize {
        match sent {
            [] => at,
            [first, others @ ..] => {
                let end = P::put(place, at, first.0, first.1);
                Others::put_each(place, end, others)
            }
        }
    }
}
