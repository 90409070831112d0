// The instructions that change a special register, one function each; the words in Ra and Rb are given.
ghost use Rattle.std.specs.Prelude.{◌+◌, ◌%◌, ◌^◌, true, slice_set};
ghost use Rattle.instructions.specs.Record.{with_epc, with_ids, with_lock, with_srh, with_buffer};
ghost use Rattle.instructions.specs.Fields as f;
ghost use Rattle.instructions.specs.Operations as o;
ghost use Rattle.ciphers.specs.Cipher.{aes_cipher};
ghost use Rattle.sealing.specs.Lines.{drk_of};
ghost use Rattle.registers.specs.Map.{key_of};
ghost use Rattle.registers.specs.Effects.{Changes};

use crate::fields;
use crate::record::Special;

// EPC is a.
pub fn epc_set(q: Special, a: u64) -> Special
    ensures { Changes (with_epc a) (key_of q) q result }
{
    Special { epc: a, ..q }
}

// PID is the low half of a, and CID the low quarter of b.
pub fn ids_set(q: Special, a: u64, b: u64) -> Special
    ensures { Changes (with_ids (a % 2 ^ 32) (b % 2 ^ 16)) (key_of q) q result }
{
    Special {
        pid: (a % 4294967296) as u32,
        cid: (b % 65536) as u16,
        ..q
    }
}

// drk.set: the DRK is a then b, a high.
pub fn drk_set(q: Special, a: u64, b: u64) -> Special
    ensures { Changes (λ p. p) (drk_of a b) q result }
{
    Special {
        drkhi: a,
        drklo: b,
        ..q
    }
}

// drk.lock.
pub fn drk_lock(q: Special) -> Special
    ensures { Changes (with_lock true) (key_of q) q result }
{
    Special { lock: true, ..q }
}

// drk.derive: words 1, 0 of CEM_Buffer are the MAC of a then b, words 3, 2 are 0.
#[tactic(auto, unfolding(instructions::specs::Operations::derived, ciphers::specs::Cipher::aes_cipher))]
pub fn drk_derive(q: Special, a: u64, b: u64) -> Special
    ensures { Changes (with_buffer (o.derived aes_cipher (key_of q) a b)) (key_of q) q result }
{
    let m = q.drk().derive(a, b);
    Special {
        word0: texts::word_at(&m, 8),
        word1: texts::word_at(&m, 0),
        word2: 0,
        word3: 0,
        ..q
    }
}

// srh.get: CEM_Buffer is the SRH.
pub fn srh_get(q: Special) -> Special
    ensures { Changes (λ p. with_buffer p.cem.srh p) (key_of q) q result }
{
    Special {
        word0: q.srh0,
        word1: q.srh1,
        word2: q.srh2,
        word3: q.srh3,
        ..q
    }
}

// srh.set: the SRH is CEM_Buffer.
pub fn srh_set(q: Special) -> Special
    ensures { Changes (λ p. with_srh p.cem.buffer p) (key_of q) q result }
{
    Special {
        srh0: q.word0,
        srh1: q.word1,
        srh2: q.word2,
        srh3: q.word3,
        ..q
    }
}

// gr.get: word sel + 1 of CEM_Buffer is a, and word sel is b.
pub fn gr_get(q: Special, w: u64, a: u64, b: u64) -> Special
    ensures { Changes (λ p. with_buffer (slice_set (slice_set p.cem.buffer (f.sel w + 1) a) (f.sel w) b) p)
        (key_of q) q result }
{
    match fields::sel(w) {
        0 => Special {
            word1: a,
            word0: b,
            ..q
        },
        1 => Special {
            word2: a,
            word1: b,
            ..q
        },
        2 => Special {
            word3: a,
            word2: b,
            ..q
        },
        3 => Special { word3: b, ..q },
        _ => q,
    }
}
