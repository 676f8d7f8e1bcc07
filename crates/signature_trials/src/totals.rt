//! Totals and fingerprints against values made elsewhere.

use hex::FromHex;
use lane_sum::{Lanes, Leaf};
use sha_lanes::Message;
use std::test::Fail;

const ONE: Lanes = Lanes {
    count: 1,
    a: 0xd7d4_2e54_fb22_3510,
    b: 0x185f_dfa4_4d55_5110,
    c: 0x0c2a_f2f4_26f8_0a1d,
    d: 0x1563_f869_c300_5be3,
};

const TWO: Lanes = Lanes {
    count: 1,
    a: 0xf8e9_aeae_c9a6_ad85,
    b: 0xa509_3218_4fa0_41b9,
    c: 0xa04d_0254_83c0_aa5d,
    d: 0x09b9_09ca_6c69_2cf2,
};

const EMPTY: Lanes = Lanes {
    count: 1,
    a: 0xe3b0_c442_98fc_1c14,
    b: 0x9afb_f4c8_996f_b924,
    c: 0x27ae_41e4_649b_934c,
    d: 0xa495_991b_7852_b855,
};

const BOTH: Lanes = Lanes {
    count: 2,
    a: 0xd0bd_dd03_c4c8_e295,
    b: 0xbd69_11bc_9cf5_92c9,
    c: 0xac77_f548_aab8_b47a,
    d: 0x1f1d_0234_2f69_88d5,
};

const ALL: Lanes = Lanes {
    count: 3,
    a: 0xb46e_a146_5dc4_fea9,
    b: 0x5865_0685_3665_4bed,
    c: 0xd426_372d_0f54_47c6,
    d: 0xc3b2_9b4f_a7bc_412a,
};

// Four rows of one block each, and four of which one has two.
const SHORT: Lanes = Lanes {
    count: 4,
    a: 0x8c42_cf9b_58e7_33b9,
    b: 0x70c4_e629_83ba_9cfd,
    c: 0xe051_2a21_364c_51e3,
    d: 0xd916_93b9_6abc_9d0d,
};

const MIXED: Lanes = Lanes {
    count: 4,
    a: 0x8ccb_9775_442b_a33e,
    b: 0x3d36_788e_d7e9_a386,
    c: 0x6a69_6c23_62a1_80c7,
    d: 0xeeb3_839b_d359_7ff3,
};

const BELOW_ZERO: Lanes = Lanes {
    count: 0,
    a: 0xdeea_7fa6_317b_878b,
    b: 0x7356_ad8b_fdb5_0f57,
    c: 0x6bdd_f09f_a337_5fc0,
    d: 0x0baa_ee9f_5697_2ef1,
};

#[test]
fn leaves(rt: HostRuntime) {
    assert_eq!(rt; Leaf::new(b"entry one", b"token one").total(), ONE);
    assert_eq!(rt; Leaf::new(b"entry two", b"token two").total(), TWO);
    assert_eq!(rt; Lanes::leaf(b"", b""), EMPTY);
}

// The totals of four rows.
fn totals_of(leaves: &[Leaf; 4]) -> [Lanes; 4] {
    let [one, two, three, four] = leaves;
    [one.total(), two.total(), three.total(), four.total()]
}

// What four totals add up to.
fn sum_of(totals: &[Lanes; 4]) -> Lanes {
    let [one, two, three, four] = totals;
    one.add(two).add(&three.add(four))
}

#[test]
fn four_leaves(rt: HostRuntime) {
    let one = Message {
        front: b"entry one",
        rest: b"token one",
    };
    let two = Message {
        front: b"entry two",
        rest: b"token two",
    };
    let none = Message {
        front: b"",
        rest: b"",
    };
    let long = Message {
        front: b"a row that is longer than a block has room for",
        rest: b"and a token behind it",
    };
    let short = totals_of(&Leaf::four(&one, &two, &none, &one));
    let mixed = totals_of(&Leaf::four(&one, &long, &two, &none));
    assert_eq!(rt; (short[1], short[2], sum_of(&short)), (TWO, EMPTY, SHORT));
    assert_eq!(rt; (mixed[2], mixed[3], sum_of(&mixed)), (TWO, EMPTY, MIXED));
}

#[test]
fn sums(rt: HostRuntime) {
    for (left, right, sum) in [
        (ONE, TWO, BOTH),
        (TWO, ONE, BOTH),
        (BOTH, EMPTY, ALL),
        (EMPTY, BOTH, ALL),
        (ALL, Lanes::zero(), ALL),
        (BELOW_ZERO, TWO, ONE),
    ] {
        assert_eq!(rt; left.add(&right), sum);
        assert_eq!(rt; sum.less(&right), left);
    }
}

#[test]
fn fingerprints(rt: HostRuntime) -> Result<(), Fail> {
    for (total, wanted) in [
        (
            Lanes::zero(),
            "2c34ce1df23b838c5abf2a7f6437cca3d3067ed509ff25f11df6b11b582b51eb",
        ),
        (
            ONE,
            "1d4068669f18a2832eafb54f08d9e035326bf2d99a7d9911d43ca36aa75d9cad",
        ),
        (
            ONE.add(&TWO).add(&EMPTY),
            "3546aa0ae8f44b1268bc01acf700e540cf6c61c3224f4cb6b39c5a7370a2c496",
        ),
        (
            EMPTY.add(&ONE).add(&TWO),
            "3546aa0ae8f44b1268bc01acf700e540cf6c61c3224f4cb6b39c5a7370a2c496",
        ),
    ] {
        let wanted = <[u8; 32] as FromHex>::from_hex(wanted)?;
        assert_eq!(rt; total.finish(), wanted);
    }
    Ok(())
}
