ghost use Rattle.std.specs.Prelude.{◌≡◌, ℕ, ◌+◌, ◌-◌, ◌*◌, ◌^◌, ◌<◌, ◌≤◌, ◌⊎◌, Bool, false};
ghost use Rattle.dr_words.specs.{Columns.{recv_column, leavers_column, trim_column, head_column}, Form.IsInForm};
ghost use Rattle.dr_words.specs.Grown.{HasGrown};
ghost use Rattle.dr_words.specs.Packing.{ring_word, ring_tag, ring_low, recv_word, recv_count, is_final, accept_word, accept_promise, accept_tag, accept_value};

/// The ring word of a piece of item `k`: its tag `k + 1` above the 32 bits of the piece.
#[inline]
pub const fn pack_ring(k: u32, low: u32) -> u64
    requires { k < 2 ^ 32 - 1 }
    ensures value { result ≡ ring_word k low }
    ensures one_to_one { (i l : ℕ) → l < 2 ^ 32 → ring_word i l ≡ result
        → (i ≡ k) × (l ≡ low) }
    ensures grows { (i l : ℕ) → i < k → l < 2 ^ 32 → ring_word i l < result }
    ensures in_form { (members column : ℕ)
        → head_column members 0 ≤ column → IsInForm members column result }
{
    ((k as u64 + 1) << 32) + low as u64
}

/// The tag of a ring word, which is 0 for none and else the item's number plus 1, and the piece.
#[inline]
pub const fn unpack_ring(word: u64) -> (u32, u32)
    ensures tag { result.0 ≡ ring_tag word }
    ensures low { result.1 ≡ ring_low word }
    ensures packed { (k low : ℕ) → low < 2 ^ 32 → word ≡ ring_word k low → result ≡ (k + 1, low) }
{
    ((word >> 32) as u32, (word & 0xffff_ffff) as u32)
}

/// The recv word of a sender of whom so many items were received; `ended` says that the count is final.
#[inline]
pub const fn pack_recv(count: u32, ended: bool) -> u64
    ensures value { result ≡ recv_word count ended }
    ensures small { result < 2 ^ 33 }
    ensures one_to_one { (n : ℕ) (b : Bool) → recv_word n b ≡ result
        → (n ≡ count) × (b ≡ ended) }
    ensures grows { (members sender n : ℕ) → n ≤ count
        → HasGrown members (recv_column sender) (recv_word n false) result }
    ensures in_form { (members sender : ℕ) → sender < members
        → IsInForm members (recv_column sender) result }
{
    ((count as u64) << 1) + ended as u64
}

/// The count of a recv word, and whether it is final.
#[inline]
pub const fn unpack_recv(word: u64) -> (u32, bool)
    requires { word < 2 ^ 33 }
    ensures count { result.0 ≡ recv_count word }
    ensures ended { result.1 ≡ is_final word }
    ensures packed { (n : ℕ) (b : Bool) → word ≡ recv_word n b → result ≡ (n, b) }
{
    ((word >> 1) as u32, word & 1 == 1)
}

/// An accept word: the promise, the tag of the accepted proposal, which is its ballot plus 1 or 0 for
/// none, and a part of its value below `2^48`.
#[inline]
pub const fn pack_accept(promise: u8, tag: u8, value: u64) -> u64
    requires { value < 2 ^ 48 }
    ensures value { result ≡ accept_word promise tag value }
    ensures one_to_one { (p t v : ℕ) → t < 2 ^ 8 → v < 2 ^ 48 → accept_word p t v ≡ result
        → (p ≡ promise) × (t ≡ tag) × (v ≡ value) }
    ensures grows { (p t v : ℕ) → t < 2 ^ 8 → v < 2 ^ 48
        → (p < promise) ⊎ ((p ≡ promise) × (t < tag)) → accept_word p t v < result }
    ensures leavers_in_form { (members : ℕ) → promise < members → tag ≤ members
        → value < 2 ^ members
        → IsInForm members (leavers_column members) result }
    ensures trim_in_form { (members sender : ℕ) → promise < members → tag ≤ members → value < 2 ^ 32
        → sender < members → IsInForm members (trim_column members sender) result }
{
    ((promise as u64) << 56) + ((tag as u64) << 48) + value
}

/// The promise, the tag and the part of the value of an accept word.
#[inline]
pub const fn unpack_accept(word: u64) -> (u8, u8, u64)
    ensures promise { result.0 ≡ accept_promise word }
    ensures tag { result.1 ≡ accept_tag word }
    ensures value { result.2 ≡ accept_value word }
    ensures packed { (p t v : ℕ) → t < 2 ^ 8 → v < 2 ^ 48
        → word ≡ accept_word p t v → result ≡ (p, t, v) }
{
    (
        (word >> 56) as u8,
        (word >> 48 & 0xff) as u8,
        word & 0xffff_ffff_ffff,
    )
}
