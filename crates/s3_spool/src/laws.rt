//! A worked block.

ghost use Rattle.std.specs.Prelude.{◌≡◌, ◌++◌, ◌∷◌, replicate};
ghost use Rattle.s3_spool.specs.Inner.Queues.{block_bytes, line_of_block};

/// The block of line 1 of page 1 with the text ABC in 132 positions has page, line and length, the text as printed, and zeros;
/// and that block gives the line back.
pub fn a_line_stands_in_its_block()
    ensures bytes { block_bytes (record { page = 1; line = 1; text = 0xc1 ∷ 0xc2 ∷ 0xc3 ∷ replicate 129 0x40 })
        ≡ (0x00 ∷ 0x01 ∷ 0x01 ∷ 0x84 ∷ 0xc1 ∷ 0xc2 ∷ 0xc3 ∷ replicate 129 0x40) ++ replicate 120 0x00 }
    ensures line { line_of_block ((0x00 ∷ 0x01 ∷ 0x01 ∷ 0x84 ∷ 0xc1 ∷ 0xc2 ∷ 0xc3 ∷ replicate 129 0x40) ++ replicate 120 0x00)
        ≡ record { page = 1; line = 1; text = 0xc1 ∷ 0xc2 ∷ 0xc3 ∷ replicate 129 0x40 } }
{}
