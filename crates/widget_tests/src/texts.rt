//! Texts in three chunks of 28 bytes.
use crate::checks::same;
use arrayvec::ArrayVec;
use gui_pool::{Chains, NoChunks, TextId};

const LONG: [u8; 85] = [b'x'; 85];

#[test]
fn a_text_that_does_not_fit_leaves_the_old_one(rt: HostRuntime) {
    let mut chains = Chains::with_capacity(rt.alloc(), 3).expect(&rt, "no memory");
    let mut out = ArrayVec::new();
    let short = chains.put(&LONG[..56]).expect(&rt, "no chunks");
    // The chunks of the text that is replaced count as free.
    let all = chains.replace(short, &LONG[..84]).expect(&rt, "no chunks");
    same(&rt, &chains.spare(), &0);
    assert_eq!(rt; chains.replace(all, &LONG), Err(NoChunks));
    chains.copy_into(all, &mut out);
    same(&rt, &out.len(), &84);
}

#[test]
fn the_empty_text_takes_no_chunk(rt: HostRuntime) {
    let mut chains = Chains::with_capacity(rt.alloc(), 0).expect(&rt, "no memory");
    let answers = [chains.put(b""), chains.put(b"a")];
    same(&rt, &answers, &[Ok(TextId::EMPTY), Err(NoChunks)]);
}
