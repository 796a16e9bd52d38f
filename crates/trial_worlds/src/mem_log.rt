// A file in memory, by what was done to it.
ghost use Rattle.std.specs.Prelude.{◌≡◌, ◌++◌, ◌∷◌, [], IsTrue, IfOk, OnOk, OnErr};
ghost use Rattle.cube_io.specs.States.{settled};
ghost use Rattle.trial_worlds.specs.Deeds.{log_of, now_after, settles, CanBe};

use cube_model::{Items, NoMemory, Text};
use std::alloc::Global;
use std::marker::Model;

/// What is done to a file.
#[derive(Drop)]
pub enum Deed {
    /// A piece was put at the end.
    Put(Text),
    /// It was cut to so many bytes.
    Cut(u64),
    /// All of it was put on the disk.
    Sync,
    /// Another file took its place, which had just these bytes, all of them on the disk.
    Become(Text),
}

/// A file that began with nothing. A clause sees what was done to it.
#[derive(Drop)]
pub struct MemLog {
    deeds: Items<Deed>,
    text: Text,
    clean: bool,
}

impl Model for MemLog {
    ghost use Rattle.std.specs.Prelude.{◌≡◌, List, IsTrue};
    ghost use Rattle.cube_io.specs.States.{settled};
    ghost use Rattle.trial_worlds.specs.declared.mem_log.Deed.{Deed};
    ghost use Rattle.trial_worlds.specs.Deeds.{log_of};

    ghost Value = { List Deed };

    ghost view = { λ s. s.deeds };

    ghost invariant = { λ s. ((log_of s.deeds).state.now ≡ s.text) × (IsTrue s.clean → (log_of s.deeds).state ≡ settled s.text) };
}

impl MemLog {
    pub fn new(alloc: Global) -> Self
        ensures { result ≡ [] }
    {
        MemLog {
            deeds: Items::new(alloc),
            text: Text::new(alloc),
            clean: true,
        }
    }

    /// What a read gives.
    pub fn bytes(&self) -> &[u8]
        ensures { result.now ≡ (log_of self.now).state.now }
    {
        self.text.as_slice()
    }

    /// Whether all of it is on the disk, and nothing else.
    pub fn is_clean(&self) -> bool
        ensures { IsTrue result → (log_of self.now).state ≡ settled (log_of self.now).state.now }
    {
        self.clean
    }

    /// Does a deed to it.
    pub fn perform(&mut self, alloc: Global, deed: Deed) -> Result<(), NoMemory>
        requires { CanBe (log_of self.old).state.now deed }
        ensures ok { OnOk result (self.new ≡ self.old ++ deed ∷ []) }
        ensures err { OnErr result (self.new ≡ self.old) }
    {
        let text = read_after(alloc, &self.text, &deed)?;
        let clean = settles(&deed);
        self.deeds.push(deed)?;
        self.text = text;
        self.clean = clean;
        Ok(())
    }
}

// What a read gives behind a deed.
fn read_after(alloc: Global, now: &Text, deed: &Deed) -> Result<Text, NoMemory>
    requires { CanBe now.now deed.now }
    ensures { IfOk result (λ text. text ≡ now_after now.now deed.now) }
{
    match deed {
        Deed::Put(piece) => {
            let mut text = now.copied(alloc)?;
            text.extend(piece.as_slice())?;
            Ok(text)
        }
        Deed::Cut(len) => Text::from_bytes(alloc, &now.as_slice()[..*len as usize]),
        Deed::Sync => now.copied(alloc),
        Deed::Become(bytes) => bytes.copied(alloc),
    }
}

// Whether all is on the disk behind a deed.
fn settles(deed: &Deed) -> bool
    ensures { result ≡ settles deed.now }
{
    match deed {
        Deed::Put(_) | Deed::Cut(_) => false,
        Deed::Sync | Deed::Become(_) => true,
    }
}
