// The digest of what a model declares.
ghost use Rattle.std.specs.Prelude.{◌≡◌, ◌<◌};
ghost use Rattle.opa_saved.specs.Digests as meant;

use opa_model::{AttrId, Model, RelId};

/// The digest of the phrases of a model.
pub(crate) fn digest(model: &Model) -> u64
    ensures { result ≡ meant.digest model.now }
{
    let attributes = digest_attributes(model);
    digest_relations(attributes, model)
}

pub(crate) fn digest_on(start: u64, bytes: &[u8]) -> u64
    requires { start < 4294967296 }
    ensures value { result ≡ meant.digest_on start bytes.now }
    ensures bound { result < 4294967296 }
{
    let mut digest = start;
    let mut rest = bytes;
    while let [byte, later @ ..] = rest {
        digest = (31 * digest + u64::from(*byte)) % 4_294_967_296;
        rest = later;
    }
    digest
}

/// With a phrase and a line feed.
#[tactic(auto, using(crate::proofs::DigestLaws::digest_line))]
fn digest_phrase(start: u64, phrase: &str) -> u64
    requires { start < 4294967296 }
    ensures value { result ≡ meant.digest_on start (meant.phrase_line phrase.now) }
    ensures bound { result < 4294967296 }
{
    digest_on(digest_on(start, phrase.as_bytes()), b"\n")
}

fn digest_attributes(model: &Model) -> u64
    ensures value { result ≡ meant.attributes_digest model.now }
    ensures bound { result < 4294967296 }
{
    let mut digest = 0;
    for n in 0..model.attribute_count() {
        digest = digest_phrase(digest, model.attribute(AttrId(n)).phrase.as_str());
    }
    digest
}

fn digest_relations(start: u64, model: &Model) -> u64
    requires { start < 4294967296 }
    ensures value { result ≡ meant.relations_digest start model.now }
{
    let mut digest = start;
    for n in 0..model.relation_count() {
        digest = digest_phrase(digest, model.relation(RelId(n)).phrase.as_str());
    }
    digest
}
