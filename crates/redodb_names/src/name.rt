ghost use Rattle.std.specs.Prelude.{◌≡◌};
ghost use Rattle.std.specs.List.{list_all};
ghost use Rattle.std.specs.Str.{IsAscii};
ghost use Rattle.redodb_model.specs.Names.{is_visible};
ghost use Rattle.redodb_names.specs.Names.{is_name as name_test, is_reserved as reserved_test};

/// How many bytes a name has at most.
pub const LONGEST_NAME: usize = 255;

fn is_reserved(text: &[u8]) -> bool
    ensures { result ≡ reserved_test text.now }
{
    matches!(text, [b'-'] | [b'=', b'>'] | [b'#', ..])
}

fn is_all_visible(text: &[u8]) -> bool
    ensures { result ≡ list_all is_visible text.now }
{
    text.iter().all(|byte| (33..=126).contains(byte))
}

/// Whether a text may be a name: 1 to 255 visible bytes of ASCII, not `-`, not `=>`, and not beginning with `#`.
#[tactic(auto, unfolding(crate::specs::Names::is_name))]
pub fn is_name(text: &[u8]) -> bool
    ensures { result ≡ name_test text.now }
{
    !text.is_empty() && text.len() <= LONGEST_NAME && is_all_visible(text) && !is_reserved(text)
}

/// Bytes of ASCII as text.
pub(crate) fn ascii_text(bytes: &[u8]) -> &str
    requires { IsAscii bytes.now }
    ensures { result.now ≡ bytes.now }
{
    unsafe { str::from_utf8_unchecked(bytes) }
}
