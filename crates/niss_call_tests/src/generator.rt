//! The words of the generator that draws the sequences.
use rand_core::utils::NextWord;
use rand_pcg::Lcg64Xsh32;

// the demo of PCG's C code begins with these words
const WORDS: [u32; 6] = [
    0xa15c_02b7,
    0x7b47_f409,
    0xba1d_3330,
    0x83d2_f293,
    0xbfa4_784b,
    0xcbed_606e,
];

#[test]
fn words_are_those_of_the_reference(rt: HostRuntime) {
    let mut rng = Lcg64Xsh32::new(42, 54);
    for word in WORDS {
        assert!(rt; rng.next_word() == word);
    }
}
