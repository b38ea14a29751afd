//! What each line adds.
ghost use Rattle.cs_base.specs.Lines.{views};
ghost use Rattle.cs_text.specs.Reading.{GivesStep};
ghost use Rattle.cs_verify.specs.Lines.{trusted_head_line, proof_line, datagram_line, claim_line_at};
ghost use Rattle.cs_verify.specs.Text.{claim_form};

use crate::claim::{Claim, Draft};
use crate::values::{read_datagram, read_proof};
use cs_check_rules::Digest;
use cs_text::{Cause, LineError, LineReader, only_field, read_digest_line};
use std::alloc::Global;

impl LineReader for Draft {
    type Whole = Claim;

    ghost form = { claim_form };

    fn start(_alloc: Global) -> Draft {
        Draft::Nothing
    }

    fn take_words(
        &mut self,
        alloc: Global,
        _number: u64,
        word: &[u8],
        fields: &[&[u8]],
    ) -> Result<(), LineError> {
        *self = self.after_line(alloc, word, fields)?;
        Ok(())
    }

    fn finish(self) -> Option<Claim> {
        match self {
            Draft::Whole(claim) => Some(claim),
            Draft::Nothing | Draft::Headed(_) => None,
        }
    }
}

impl Draft {
    fn after_line(&self, alloc: Global, word: &[u8], fields: &[&[u8]]) -> Result<Draft, LineError>
        ensures { GivesStep result (claim_line_at self.now word.now (views fields.now)) }
    {
        match self {
            Draft::Nothing if word == b"head".as_slice() => read_head_line(alloc, fields),
            Draft::Headed(head) if word == b"proof".as_slice() => {
                read_proof_line(alloc, *head, fields)
            }
            Draft::Headed(head) if word == b"datagram".as_slice() => {
                read_datagram_line(alloc, *head, fields)
            }
            Draft::Nothing | Draft::Headed(_) => Err(LineError::Bad(Cause::Word)),
            Draft::Whole(_) => Err(LineError::Bad(Cause::After)),
        }
    }
}

fn read_head_line(alloc: Global, fields: &[&[u8]]) -> Result<Draft, LineError>
    ensures { GivesStep result (trusted_head_line (views fields.now)) }
{
    let head = read_digest_line(alloc, fields)?;
    Ok(Draft::Headed(head))
}

// The proof behind the head.
fn read_proof_line(alloc: Global, head: Digest, fields: &[&[u8]]) -> Result<Draft, LineError>
    ensures { GivesStep result (proof_line head (views fields.now)) }
{
    let field = only_field(fields)?;
    let proof = read_proof(alloc, field)?;
    Ok(Draft::Whole(Claim { head, proof }))
}

// The datagram of the proof behind the head.
fn read_datagram_line(alloc: Global, head: Digest, fields: &[&[u8]]) -> Result<Draft, LineError>
    ensures { GivesStep result (datagram_line head (views fields.now)) }
{
    let field = only_field(fields)?;
    let proof = read_datagram(alloc, field)?;
    Ok(Draft::Whole(Claim { head, proof }))
}
