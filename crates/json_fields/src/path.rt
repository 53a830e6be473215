// The place of a value in a bundle.
ghost use Rattle.std.specs.Prelude.{◌≡◌, IfOk, string_bytes};
ghost use Rattle.json_fields.specs.Paths.{at_member, at_row};

use std::alloc::Global;
use std::marker::Model;
use vpc_base::NoMemory;

/// The place of a value in a bundle. It is written, as `Vpcs[0].CidrBlock`, only where a fault is told:
/// until then it refers to the place of what the value stands in. Contracts see the bytes of the text.
#[cycle(path)]
#[derive(Drop)]
pub struct Path<'a> {
    part: Part<'a>,
}

#[cycle(path)]
#[derive(Drop)]
enum Part<'a> {
    /// A list of the bundle, or `$` for the bundle itself.
    List(&'a str),
    Row(&'a Path<'a>, u64),
    Member(&'a Path<'a>, &'a str),
}

impl<'a> Model for Path<'a> {
    ghost use Rattle.std.specs.Prelude.{List, ℕ, length};

    ghost Value = { List ℕ };

    ghost use Rattle.json_fields.specs.PathParts.{text_of};

    ghost view = { λ p. text_of p.part };

    ghost size = { length };

    ghost use Rattle.std.proofs.Common.{arith, length-append};

    ghost size_decreases = { λ a h. Prim.grind (arith, length-append) };
}

impl Path<'_> {
    /// The list of this name in the bundle, or `$` for the bundle itself.
    pub fn list(name: &str) -> Path<'_>
        ensures { result ≡ name.now }
    {
        Path {
            part: Part::List(name),
        }
    }

    /// The row of this number, as `PATH[ROW]`.
    pub fn row(&self, row: u64) -> Path<'_>
        ensures { result ≡ at_row self.now row }
    {
        Path {
            part: Part::Row(self, row),
        }
    }

    /// The member of this name, as `PATH.FIELD`.
    pub fn member<'b>(&'b self, field: &'b str) -> Path<'b>
        ensures { result ≡ at_member self.now field.now }
    {
        Path {
            part: Part::Member(self, field),
        }
    }

    fn written(&self, alloc: Global) -> Result<String, NoMemory>
        ensures { IfOk result (λ t. string_bytes t ≡ self.now) }
    {
        match &self.part {
            Part::List(name) => Ok(String::from_str(alloc, name)?),
            Part::Row(above, row) => with_row(above.written(alloc)?, *row),
            Part::Member(above, field) => with_member(above.written(alloc)?, field),
        }
    }

    /// The text of the path.
    pub fn text(&self, alloc: Global) -> Result<PathText, NoMemory>
        ensures { IfOk result (λ t. t ≡ self.now) }
    {
        Ok(PathText {
            text: self.written(alloc)?,
        })
    }
}

fn with_row(mut text: String, row: u64) -> Result<String, NoMemory>
    ensures { IfOk result (λ t. string_bytes t ≡ at_row (string_bytes text) row) }
{
    write!(text, "[{row}]")?;
    Ok(text)
}

fn with_member(mut text: String, field: &str) -> Result<String, NoMemory>
    ensures { IfOk result (λ t. string_bytes t ≡ at_member (string_bytes text) field.now) }
{
    text.push_str(".")?;
    text.push_str(field)?;
    Ok(text)
}

/// The text of a path, as `Vpcs[0].CidrBlock`. Rows count from 0 in the joined list of their name.
#[derive(Drop)]
pub struct PathText {
    text: String,
}

impl Model for PathText {
    ghost use Rattle.std.specs.Prelude.{List, ℕ, string_bytes};

    ghost Value = { List ℕ };

    ghost view = { λ p. string_bytes p.text };
}

impl PathText {
    /// The bytes of the text, as it is printed.
    pub fn bytes(&self) -> &[u8]
        ensures { result.now ≡ self.now }
    {
        self.text.as_bytes()
    }
}
