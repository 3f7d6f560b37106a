//! How a picture is written.

ghost use Rattle.cmh_picture.specs.Formats.{IsFormatOf};

use std::str::FromStr;

/// How a picture is written.
#[derive(Clone, Copy)]
pub enum Format {
    /// As text for Graphviz.
    Dot,
    /// As SVG.
    Svg,
}

/// The word names no format.
#[derive(Clone, Copy)]
pub struct NoFormat;

/// The words of a command line: `dot` and `svg`.
impl FromStr for Format {
    type Err = NoFormat;

    ghost from_str_gives = { IsFormatOf };

    fn from_str(word: &str) -> Result<Format, NoFormat> {
        match word {
            "dot" => Ok(Format::Dot),
            "svg" => Ok(Format::Svg),
            _ => Err(NoFormat),
        }
    }
}
