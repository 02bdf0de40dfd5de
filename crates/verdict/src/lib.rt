// What the whole check comes to.
#![tactic(auto)]

use header::Header;
use refusal::Refusal;

// The header of a file that obeys every rule, or the refusal.
pub type Verdict = Result<Header, Refusal>;
