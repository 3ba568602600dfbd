// Blocks sealed or opened in their place: one loop for both.
ghost use Rattle.std.specs.Prelude.{◌≡◌, ◌+◌, ◌-◌, ◌<◌, ◌≤◌, ℕ, List, min, length};
ghost use Rattle.std.proofs.Math.Seq.{paste};
ghost use Rattle.state.specs.declared.State.{State};
ghost use Rattle.state.specs.Block.{sealing, opening, stream};
ghost use Rattle.state.specs.Xor.{xor_lists};
ghost use Rattle.morus.specs.Blocks.{bytes_by, state_by};
ghost use Rattle.morus.specs.InPlace.{BlockDone};

use buffers::copy;
use state::State;
use state::block::block;
use state::lane::Lane;

// The block `b`, by value as `masked` gives it, over the bytes of `m` from byte `i` on, as far as `m` goes.
fn store(m: &mut [u8], i: usize, b: [u8; 32])
    ensures { m.new ≡ paste m.old i b (min (length m.old - i) 32) }
{
    copy(m, i, &b);
}

// The whole block `m` by `enc`, which stores it in its place before the update: stored after it, sealing 65,536 bytes
// takes 4 % more instructions; and read out through the array, opening as many takes 4 % more. `#[inline(always)]` on
// all that is done to a whole block: the state then stays in registers from block to block.
#[inline(always)]
fn enc_whole(s: State, m: &mut [u8]) -> State
    requires { length m.old ≡ 32 }
    ensures state { result ≡ sealing s m.old }
    ensures bytes { m.new ≡ xor_lists m.old (stream s) }
{
    let mut src = [0u8; 32];
    src.copy_from_slice(m);
    s.enc(m.as_mut_array().unwrap(), src)
}

// The whole block `m` by `dec`, likewise.
#[inline(always)]
fn dec_whole(s: State, m: &mut [u8]) -> State
    requires { length m.old ≡ 32 }
    ensures state { result ≡ opening s m.old }
    ensures bytes { m.new ≡ xor_lists m.old (stream s) }
{
    let mut src = [0u8; 32];
    src.copy_from_slice(m);
    s.dec(m.as_mut_array().unwrap(), src)
}

// What is done to a block from byte `at` on, a whole one or the last part; `after` is the state after it. Whole blocks
// are apart, for speed: 32 bytes are then one load and one store.
pub(crate) trait Direction {
    ghost after: { State → List ℕ → State };

    fn whole(s: State, mc: &mut [u8], at: usize) -> State
        requires { at + 32 ≤ length mc.old }
        ensures { BlockDone after s mc.old at result mc.new };

    fn last(s: State, mc: &mut [u8], at: usize) -> State
        requires { (at < length mc.old) × (length mc.old < at + 32) }
        ensures { BlockDone after s mc.old at result mc.new };
}

// A whole block by `enc`. The last part is what `enc` does, in its two steps, so that `enc` has one place, the loop.
pub(crate) struct Sealing;

impl Direction for Sealing {
    ghost after = { sealing };

    #[inline(always)]
    fn whole(s: State, mc: &mut [u8], at: usize) -> State {
        enc_whole(s, &mut mc[at..at + 32])
    }

    fn last(s: State, mc: &mut [u8], at: usize) -> State {
        let src = block(mc, at);
        store(mc, at, s.masked(src));
        s.update(Lane::from_bytes(&src))
    }
}

// A block by `dec`, and the last part by `dec_partial`.
pub(crate) struct Opening;

impl Direction for Opening {
    ghost after = { opening };

    #[inline(always)]
    fn whole(s: State, mc: &mut [u8], at: usize) -> State {
        dec_whole(s, &mut mc[at..at + 32])
    }

    fn last(s: State, mc: &mut [u8], at: usize) -> State {
        let mut part = [0u8; 32];
        let end = s.dec_partial(&mut part, &mc[at..]);
        store(mc, at, part);
        end
    }
}

// All of `mc` in place, and the state after it. Two blocks a turn: LLVM then finds each lane back in its registers, and
// moves none. Blocks are parts by index, since a proof knows no byte of what `as_chunks_mut` has lent.
pub(crate) fn through<D: Direction>(s: State, mc: &mut [u8]) -> State
    ensures state { result ≡ state_by D.after s mc.old }
    ensures bytes { mc.new ≡ bytes_by D.after s mc.old }
{
    let blocks = mc.len() / 32;
    let mut st = s;
    for k in 0..blocks / 2 {
        st = D::whole(st, mc, 64 * k);
        st = D::whole(st, mc, 64 * k + 32);
    }
    if blocks % 2 == 1 {
        st = D::whole(st, mc, 32 * (blocks - 1));
    }
    if mc.len() % 32 != 0 {
        st = D::last(st, mc, 32 * blocks);
    }
    st
}
