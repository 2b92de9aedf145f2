//! The paths in the words of a call.

ghost use Rattle.std.specs.Prelude.{◌≡◌, codes, option_map, slice_get};
ghost use Rattle.ingest_run.specs.Words.{attached as attached_of, texts, value_in, value_of};

/// The paths that the words of a call name.
#[derive(Clone, Copy, Debug, PartialEq, Eq)]
pub struct Paths<'a> {
    /// The folder of a take: the value of `--dir`.
    pub dir: &'a str,
}

/// Reads the paths in the words of a call, of which the first is the command's name; none where the folder has no value.
pub fn read_paths(words: &[String]) -> Option<Paths<'_>>
    ensures { option_map (λ paths. paths.dir.now) result ≡ value_of (codes "--dir") (texts words.now) }
{
    let Some((_, rest)) = words.split_first() else {
        return None;
    };
    match value_among("--dir", rest) {
        Some(dir) => Some(Paths { dir }),
        None => None,
    }
}

/// The value of an option in the words behind a command's name.
fn value_among<'a>(option: &str, words: &'a [String]) -> Option<&'a str>
    ensures { option_map (λ value. value.now) result ≡ value_in option.now (texts words.now) }
{
    let mut left = words;
    'words: while let Some((word, rest)) = left.split_first() {
        let word = word.as_str();
        if word == option {
            return first_of(rest);
        }
        if let Some(value) = attached(option, word) {
            return Some(value);
        }
        left = rest;
    }
    None
}

/// The first of the words.
fn first_of(words: &[String]) -> Option<&str>
    ensures { option_map (λ word. word.now) result ≡ slice_get (texts words.now) 0 }
{
    match words.first() {
        Some(word) => Some(word.as_str()),
        None => None,
    }
}

/// The value that a word has attached: what follows the option and `=`.
fn attached<'a>(option: &str, word: &'a str) -> Option<&'a str>
    ensures { option_map (λ value. value.now) result ≡ attached_of option.now word.now }
{
    let Some(rest) = word.strip_prefix(option) else {
        return None;
    };
    rest.strip_prefix('=')
}

#[cfg(test)]
mod tests {
    use super::*;
    use crate::tests::words_of;
    use std::test::Fail;

    // docs/FORMATS.md, "Words": the first value of the option counts, and the first word of all is the command's.
    #[test]
    fn the_folder_is_the_first_value_of_its_option(rt: HostRuntime) -> Result<(), Fail> {
        let cases: [(&[&str], Option<&str>); 18] = [
            (&[], None),
            (&["check"], None),
            (&["--dir", "a"], None),
            (&["--dir=a"], None),
            (&["check", "--dir"], None),
            (&["check", "--dir", "a"], Some("a")),
            (&["check", "--dir=a"], Some("a")),
            (&["check", "--dir="], Some("")),
            (&["check", "--dir", ""], Some("")),
            (&["check", "--dir==a"], Some("=a")),
            (&["check", "--dirs", "a"], None),
            (&["check", "--dirs=a"], None),
            (&["check", "-dir", "a"], None),
            (&["check", "--di", "--dir=", "a"], Some("")),
            (&["check", "--dir", "a", "--dir", "b"], Some("a")),
            (&["check", "--dir=a", "--dir", "b"], Some("a")),
            (&["check", "--dir", "--dir", "b"], Some("--dir")),
            (&["frame", "--number", "3", "--dir", "a b"], Some("a b")),
        ];
        for (texts, dir) in cases {
            let words = words_of(rt.alloc(), texts)?;
            let want = match dir {
                Some(dir) => Some(Paths { dir }),
                None => None,
            };
            assert_eq!(rt; read_paths(&words), want, "{texts:?}");
        }
        Ok(())
    }
}
