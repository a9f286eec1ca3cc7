// Keys of jobs: their texts, with a digest by which they are found.
ghost use Rattle.std.specs.Prelude.{◌≡◌, IfOk};
ghost use Rattle.sha2.specs.Sha256.{sha256};
ghost use Rattle.module_registry.specs.Jobs.{job_text};

use crate::build_job::BuildJob;
use crate::digests::digest;
use crate::key_texts::key_text;
use ls_text::{Names, NoMemory, TextBytes};
use std::alloc::{AllocError, Global};
use std::marker::Model;
use std::sync::Arc;

/// The text of a job, its digest, and the job itself. Contracts see it as these three.
///
/// Keys are equal where their digests and their texts are; the job isn't looked at. A key is hashed by its digest alone.
#[derive(Drop)]
pub struct Key {
    pub(crate) digest: [u8; 32],
    pub(crate) text: Arc<TextBytes, Global>,
    pub(crate) job: Arc<BuildJob, Global>,
}

impl Model for Key {
    ghost use Rattle.std.specs.Coded.{codes};
    ghost use Rattle.module_registry.specs.contracts.build_job.BuildJob.{the_row as build_row};
    ghost use Rattle.module_registry.specs.Keys.{KeyData};

    ghost Value = { KeyData };

    ghost coded = { Prim.hlevel (codes, build_row.coded) };

    ghost view = { λ k. record { digest = k.digest; text = k.text.value; job = k.job.value } };
}

impl Key {
    /// The key of a job: its text by the names of this table, and the digest of the text.
    pub fn new(alloc: Global, names: &Names, job: BuildJob) -> Result<Key, NoMemory>
        ensures text { IfOk result (λ k. k.text ≡ job_text names.now job) }
        ensures digest { IfOk result (λ k. k.digest ≡ sha256 k.text) }
        ensures job { IfOk result (λ k. k.job ≡ job) }
    {
        let text = key_text(alloc, names, &job)?;
        let digest = digest(&text);
        let text = Arc::new(alloc, TextBytes::new(text))?;
        let job = Arc::new(alloc, job)?;
        Ok(Key { digest, text, job })
    }

    /// The same key with another digest. It takes no memory.
    pub fn with_digest(self, digest: [u8; 32]) -> Key
        ensures { result ≡ record { digest = digest; text = self.text; job = self.job } }
    {
        Key {
            digest,
            text: self.text,
            job: self.job,
        }
    }

    /// The digest.
    pub fn digest(&self) -> [u8; 32]
        ensures { result ≡ self.now.digest }
    {
        self.digest
    }

    /// The text.
    pub fn text(&self) -> &[u8]
        ensures { result.now ≡ self.now.text }
    {
        self.text.bytes()
    }

    /// The job.
    pub fn job(&self) -> &BuildJob
        ensures { result.now ≡ self.now.job }
    {
        &self.job
    }
}

impl Clone for Key {
    ghost is_clone = { λ x y. y ≡ x };

    ghost is_infallible = { λ _. ⊥ };

    // The same key, which shares its text and its job with this one.
    fn clone(&self) -> Result<Key, AllocError> {
        Ok(Key {
            digest: self.digest,
            text: self.text.clone()?,
            job: self.job.clone()?,
        })
    }
}
