use sem_pick::Draws;

// The first words of these seeds, before any remainder is taken.
const WORDS: [(u64, [u32; 4]); 5] = [
    (0, [0x0f5d_eba9, 0x1842_96dd, 0x3576_43f4, 0xf8e8_4c31]),
    (1, [0xc982_8f91, 0x1592_e274, 0xc026_2657, 0xa5c2_b6d3]),
    (42, [0x4df1_ccf9, 0xe583_8752, 0x58ed_9e10, 0xf3e3_7b51]),
    (
        20260727,
        [0x86de_ea7c, 0x7791_d288, 0x1bfe_b494, 0xa617_2cdb],
    ),
    (
        u64::MAX,
        [0xe239_3051, 0xd4ee_9aa6, 0x7240_75bd, 0xdbc6_f13b],
    ),
];

#[test]
fn a_number_is_the_remainder_of_the_next_word(rt: HostRuntime) {
    for (seed, words) in WORDS {
        let mut draws = Draws::new(seed);
        for word in words {
            assert_eq!(rt; draws.pick(u32::MAX), word, "of seed {seed}");
        }
        let [_, second, _, fourth] = words;
        let mut draws = Draws::new(seed);
        assert_eq!(rt; draws.pick(1), 0, "of seed {seed}");
        assert_eq!(rt; draws.pick(u32::MAX), second, "of seed {seed}");
        assert_eq!(rt; draws.pick(1), 0, "of seed {seed}");
        assert_eq!(rt; draws.pick(u32::MAX), fourth, "of seed {seed}");
    }
    for (seed, digits) in [
        (0, [7, 1, 2, 5, 7, 7, 2, 0]),
        (1, [9, 4, 5, 7, 8, 7, 6, 9]),
        (42, [1, 2, 4, 9, 6, 0, 0, 2]),
        (u64::MAX, [7, 0, 9, 7, 5, 9, 7, 9]),
    ] {
        let mut draws = Draws::new(seed);
        for digit in digits {
            assert_eq!(rt; draws.pick(10), digit, "of seed {seed}");
        }
    }
}
