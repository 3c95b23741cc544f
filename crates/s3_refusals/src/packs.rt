//! Packs by their first bytes and by what is wrong with their headers.
ghost use Rattle.std.specs.Prelude.{◌≡◌};
ghost use Rattle.s3_refusals.specs.Inner.Packs.{begins_as_pack as begins_as_pack_spec, has_format as has_format_spec, words_of_beginning, words_of_pack};

use s3_labels::MountFault;

/// Whether a file begins as a pack of any format does.
pub fn begins_as_pack(bytes: &[u8]) -> bool
    ensures { result ≡ begins_as_pack_spec bytes.now }
{
    bytes.starts_with(b"S3PACK")
}

/// Whether a file begins as a pack of one of the two formats does.
fn has_format(bytes: &[u8]) -> bool
    ensures { result ≡ has_format_spec bytes.now }
{
    bytes.starts_with(b"S3PACK01") || bytes.starts_with(b"S3PACK02")
}

/// Why a file is no pack, by its first bytes, and what to do: the end of a sentence that begins with its name. Empty if it begins as a
/// pack does.
pub fn beginning_words(bytes: &[u8]) -> &'static str
    ensures { result.now ≡ words_of_beginning bytes.now }
{
    if has_format(bytes) {
        ""
    } else if begins_as_pack(bytes) {
        "is a pack of another version: it begins with S3PACK, but not with S3PACK01 or S3PACK02; use the program that made it, or take a copy that is whole"
    } else {
        "is no pack: it doesn't begin with S3PACK; give the file of a pack, as `bureau init` makes it"
    }
}

/// Why a pack isn't accepted, by its header.
pub fn pack_words(fault: MountFault) -> &'static str
    ensures { result.now ≡ words_of_pack fault }
{
    match fault {
        MountFault::BadHeader => {
            "it doesn't begin as a pack does, or its quotas are those of no pack"
        }
        MountFault::BadRegions => "its regions aren't whole tracks within it, or they meet",
        MountFault::Short =>
            "it is no pack, or it isn't whole: it has fewer sectors than its header says, or than 168",
    }
}
