ghost use Rattle.std.specs.Prelude.{◌≡◌, ◌<◌, IfSome};
ghost use Rattle.dr_entry.specs.declared.limits.TheConstants.{MAX_MEMBERS};
ghost use Rattle.dr_literals.specs.Literals.{mask_word, member_word};

use crate::numbers::number_word;
use dr_entry::MAX_MEMBERS;
use dr_words::Mask;

/// The members whose numbers a word writes: at least one, in ascending order, with commas between them.
pub fn mask_word(word: &str) -> Option<Mask>
    ensures { result ≡ mask_word word.now }
{
    let mut mask = Mask::empty();
    let mut least = 0;
    for number in word.split(',') {
        let member = member_word(least, number)?;
        mask = mask.with(member);
        least = member + 1;
    }
    Some(mask)
}

/// The number of a member that a word writes, where it is no lower than `least`.
fn member_word(least: u8, word: &str) -> Option<u8>
    ensures number { result ≡ member_word least word.now }
    ensures member { IfSome result (λ n. n < MAX_MEMBERS) }
{
    let number = number_word(word)?;
    if u64::from(least) <= number && number < MAX_MEMBERS as u64 {
        Some(number as u8)
    } else {
        None
    }
}
