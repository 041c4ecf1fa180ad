// The form that words have, or the first word that no command has at its place.
ghost use Rattle.std.specs.Prelude.{◌≡◌, ◌≤◌, ◌<◌, ◌^◌, None, Some, MatchResult, length};
ghost use Rattle.wave_words.specs.Words.{texts, asked, IsUsageAt};
ghost use Rattle.wave_words.specs.Reach.{furthest};

use crate::form::{Form, form_reach, has_form};

/// The first of these forms that the words have.
fn asked(forms: &[Form], words: &[String]) -> Option<Form>
    ensures { result ≡ asked forms.now (texts words.now) }
{
    for form in forms {
        if has_form(words, *form) {
            return Some(*form);
        }
    }
    None
}

/// The most words that may begin words of one of the commands.
fn furthest(forms: &[Form], words: &[String]) -> usize
    ensures count { result ≡ furthest (texts words.now) forms.now }
    ensures within { result ≤ length words.now }
{
    let mut most = 0;
    for form in forms {
        most = most.max(form_reach(words, *form));
    }
    most
}

/// The place of the first word that is wrong or missing.
#[tactic(auto, using(crate::proofs::WordLaws::usage_at))]
fn first_wrong(forms: &[Form], words: &[String]) -> u32
    requires some { 0 < length forms.now }
    requires few { length words.now < 2 ^ 32 }
    requires refused { asked forms.now (texts words.now) ≡ None }
    ensures { IsUsageAt forms.now (texts words.now) result }
{
    furthest(forms, words) as u32
}

/// The form that the words have, the first of these; of words that are no command's the place,
/// from 0, of the first one that is wrong or missing. It takes no memory.
pub fn usage(forms: &[Form], words: &[String]) -> Result<Form, u32>
    requires some { 0 < length forms.now }
    requires few { length words.now < 2 ^ 32 }
    ensures { MatchResult result (λ form. asked forms.now (texts words.now) ≡ Some form) (IsUsageAt forms.now (texts words.now)) }
{
    match asked(forms, words) {
        Some(form) => Ok(form),
        None => Err(first_wrong(forms, words)),
    }
}
