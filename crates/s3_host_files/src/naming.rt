//! How a new pack gets the name of its file, by what is found there, and which files in its folder are leftovers of killed saves.
ghost use Rattle.std.specs.Prelude.{◌≡◌};
ghost use Rattle.s3_host_files.specs.Inner.Naming.{naming_of, words_of_hindrance, can_begin_pack as can_begin_pack_spec, is_begun as is_begun_spec, is_leftover as is_leftover_spec, is_replaceable as is_replaceable_spec};

/// What has the name of a locked file.
#[derive(Clone, Copy, Debug, PartialEq, Eq)]
pub enum AtName {
    /// Nothing: the locked file was removed, or it has another name now.
    Nothing,
    /// The locked file.
    Locked,
    /// Another file.
    Other,
}

/// How a new file gets its name.
#[derive(Clone, Copy, Debug, PartialEq, Eq)]
pub enum Naming {
    /// It replaces the file of this name.
    Replaces,
    /// It is the first file of this name.
    IsFirst,
}

/// Why a new file can't replace a locked one.
#[derive(Clone, Copy, Debug, PartialEq, Eq)]
pub enum Hindrance {
    /// Another file has its name by now.
    Moved,
    /// The locked file may not be written.
    Protected,
    /// The locked file has other contents than at the time of the lock.
    Changed,
}

impl Hindrance {
    /// Why the file isn't replaced, and what to do: the end of a sentence that begins with the file's name.
    pub fn words(self) -> &'static str
        ensures { result.now ≡ words_of_hindrance self }
    {
        match self {
            Hindrance::Moved => {
                "is another file by now, which another program has put there, and stays as it is; repeat the command over that file, or give another name"
            }
            Hindrance::Protected => {
                "is protected by its mode or by an attribute; its owner can allow reading and writing by `chmod` or `chattr`, or give another name"
            }
            Hindrance::Changed => {
                "was changed by another program while this command worked, and stays as it is; repeat the command over the changed file, or give another name"
            }
        }
    }
}

/// How a new file gets the name of a locked one, given what has the name, whether the locked file may be written, and whether its
/// contents are those of the time of the lock.
pub fn choose_naming(
    at_name: AtName,
    may_write: bool,
    is_as_locked: bool,
) -> Result<Naming, Hindrance>
    ensures { result ≡ naming_of at_name may_write is_as_locked }
{
    match at_name {
        AtName::Nothing => Ok(Naming::IsFirst),
        AtName::Other => Err(Hindrance::Moved),
        AtName::Locked if !may_write => Err(Hindrance::Protected),
        AtName::Locked if !is_as_locked => Err(Hindrance::Changed),
        AtName::Locked => Ok(Naming::Replaces),
    }
}

/// The command that has a file with a name like the new files of saves.
#[derive(Clone, Copy, Debug, PartialEq, Eq)]
pub enum Claim {
    /// The command that saves: it reads this pack.
    Read,
    /// The file that is saved: a save that was killed after it had given that file its name left this second name.
    SecondName,
    /// A command that has locked it.
    Locked,
    /// No command.
    Free,
}

/// Whether a file is the leftover of a killed save, given who has it, and whether it is empty or begins as a pack does.
pub fn is_leftover(claim: Claim, begins_as_pack: bool) -> bool
    ensures { result ≡ is_leftover_spec claim begins_as_pack }
{
    match claim {
        Claim::Read | Claim::Locked => false,
        Claim::SecondName => true,
        Claim::Free => begins_as_pack,
    }
}

/// Whether a pack may replace a file with these bytes: it is empty, or begins as a pack of either format does.
pub fn is_replaceable(bytes: &[u8]) -> bool
    ensures { result ≡ is_replaceable_spec bytes.now }
{
    bytes.is_empty() || bytes.starts_with(b"S3PACK01") || bytes.starts_with(b"S3PACK02")
}

/// Whether a killed save can have left a file with these bytes: they begin as a pack of either format does, or are the beginning of its
/// mark.
pub fn can_begin_pack(bytes: &[u8]) -> bool
    ensures { result ≡ can_begin_pack_spec bytes.now }
{
    is_begun(bytes, b"S3PACK01") || is_begun(bytes, b"S3PACK02")
}

/// Whether bytes begin with a mark, or are the beginning of it.
fn is_begun(bytes: &[u8], mark: &[u8]) -> bool
    ensures { result ≡ is_begun_spec mark.now bytes.now }
{
    bytes.starts_with(mark) || mark.starts_with(bytes)
}
