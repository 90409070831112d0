// The tables of AES-128, each a type whose values keep FIPS 197's rule over GF(2^8), shown by one test of the whole
// table.
//
// A function that names a constant array copies it, so each table is handed out by value, once for a long piece of
// work, and lent on by `&`. The last byte of each entry of `mixed` is SubBytes, so that the cipher needs no second
// table; the inverse S-box is one of words, so that both ciphers end in the same way.
// Kept: four types and not one with a parameter. A type with the rule as a trait's member would be no plainer: its
// entries are bytes for one rule and words for the others, and each rule needs a type of its own to stand for it.
#![tactic(auto)]

mod mixing;
mod substitution;

ghost use Rattle.field.specs.Field.{sub_byte, inv_sub_byte};
ghost use Rattle.field.specs.Mixing.{mixed_entry, unmixed_entry};
ghost use Rattle.field.specs.Table.{Table};

// The S-box: SubBytes of each byte.
#[derive(Clone, Copy, Debug, PartialEq, Eq)]
pub struct SubBytes {
    pub entries: [u8; 256],
    pub ghost rule: { Table 256 sub_byte entries },
}

// The inverse S-box: InvSubBytes of each byte.
#[derive(Clone, Copy, Debug, PartialEq, Eq)]
pub struct InvSubBytes {
    pub entries: [u32; 256],
    pub ghost rule: { Table 256 inv_sub_byte entries },
}

// For each byte, what SubBytes and then MixColumns make of it in the third row of a column.
#[derive(Clone, Copy, Debug, PartialEq, Eq)]
pub struct MixColumns {
    pub entries: [u32; 256],
    pub ghost rule: { Table 256 mixed_entry entries },
}

// For each byte, what InvSubBytes and then InvMixColumns make of it in the third row of a column.
#[derive(Clone, Copy, Debug, PartialEq, Eq)]
pub struct InvMixColumns {
    pub entries: [u32; 256],
    pub ghost rule: { Table 256 unmixed_entry entries },
}

// The S-box.
pub fn sbox() -> SubBytes {
    SubBytes {
        entries: substitution::SBOX,
    }
}

// The inverse S-box.
pub fn inv_sbox() -> InvSubBytes {
    InvSubBytes {
        entries: substitution::INV_SBOX,
    }
}

// The table that substitutes and mixes.
pub fn mixed() -> MixColumns {
    MixColumns {
        entries: mixing::MIXED,
    }
}

// The table that substitutes back and unmixes.
pub fn unmixed() -> InvMixColumns {
    InvMixColumns {
        entries: mixing::UNMIXED,
    }
}
