//! What the keys of records say of their order.
ghost use Rattle.std.specs.Prelude.{ℕ, ℤ, ◌≡◌, ◌≤◌, ◌^◌, true, nat_lt, int_lt, unsigned_abs};
ghost use Rattle.s3_pack_care.specs.Inner.Keys.{rank, turned};

/// The ranks of numbers of at most 15 digits are in the order of the numbers, and a rank that is turned round is in the other order.
pub fn ranks_are_in_the_order_of_numbers()
    ensures numbers { (a b : ℤ) → unsigned_abs a ≤ 10 ^ 15 → unsigned_abs b ≤ 10 ^ 15 → nat_lt (rank a) (rank b) ≡ int_lt a b }
    ensures descending { (greatest a b : ℕ) → a ≤ greatest → b ≤ greatest → nat_lt (turned true greatest a) (turned true greatest b) ≡ nat_lt b a }
{}
