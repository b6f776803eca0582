//! What is told of a file beside an answer about it.

ghost use Rattle.std.specs.Prelude.{◌≡◌, Bool, Option, Some, map, slice_get, string_bytes};
ghost use Rattle.aig_command_line.specs.Notices.{compares_within, leaves_out, line_about, line_if, lines_of, notices_at, notices_of, tells_line};
ghost use Rattle.std.specs.List.{FoldsTo};

use crate::arguments::path_at;
use crate::path::ShownPath;
use crate::status::Teller;
use aig_lexer::Header;

/// What a command does with parts of a file that its answer isn't about.
#[derive(Clone, Copy)]
pub struct Regard {
    /// It doesn't look at justice properties and fairness constraints.
    pub leaves_out: bool,
    /// It compares files on runs that the constraints of both allow.
    pub compares: bool,
}

/// The headers of the first two files that were opened, where they were seen.
#[derive(Clone, Copy)]
pub struct Headers {
    /// That of the first file.
    pub first: Option<Header>,
    /// That of the second one.
    pub second: Option<Header>,
}

/// Whether a file has something that isn't looked at: a justice property or a fairness constraint.
fn leaves_out(regard: Regard, header: Header) -> bool
    ensures { result ≡ leaves_out regard header }
{
    regard.leaves_out && (header.justice > 0 || header.fairness > 0)
}

/// Whether a file's constraints say which runs are compared.
fn compares_within(regard: Regard, header: Header) -> bool
    ensures { result ≡ compares_within regard header }
{
    regard.compares && header.constraints > 0
}

/// Tells a text about the file at a path, by a line, or nothing.
fn tell_if<T: Teller>(is_so: bool, program: &str, path: &str, text: &str, errors: &mut T)
    ensures { FoldsTo (tells_line T.tells) errors.old
        (line_if is_so (line_about program.now path.now text.now)) errors.new }
{
    if is_so {
        let path = ShownPath { path };
        errors.tell(format_args!("{program}: {path}: {text}"));
    }
}

/// Tells of the file at a path, which has this header, what a program's answer isn't about: by a line, that its justice properties and
/// fairness constraints were not looked at, and by another one, that files were compared only on runs that its constraints allow.
fn tell_notices<T: Teller>(
    program: &str,
    path: &str,
    regard: Regard,
    header: Option<Header>,
    errors: &mut T,
)
    ensures { FoldsTo (tells_line T.tells) errors.old
        (notices_of program.now path.now regard header) errors.new }
{
    let Some(header) = header else {
        return;
    };
    let left_out = "justice and fairness were not looked at";
    tell_if(leaves_out(regard, header), program, path, left_out, errors);
    let within = "compared only on runs that its constraints allow";
    tell_if(
        compares_within(regard, header),
        program,
        path,
        within,
        errors,
    );
}

/// Tells of the file at one of these paths, if there is one.
fn tell_at<T: Teller>(
    program: &str,
    paths: &[String],
    index: usize,
    regard: Regard,
    header: Option<Header>,
    errors: &mut T,
)
    ensures { FoldsTo (tells_line T.tells) errors.old
        (notices_at program.now (slice_get (map string_bytes paths.now) index) regard header)
        errors.new }
{
    let Some(path) = path_at(paths, index) else {
        return;
    };
    tell_notices(program, path, regard, header, errors);
}

/// Tells what a program's answer isn't about, of the files at its first two paths.
pub fn tell_of_files<T: Teller>(
    program: &str,
    paths: &[String],
    regard: Regard,
    headers: Headers,
    errors: &mut T,
)
    ensures { FoldsTo (tells_line T.tells) errors.old
        (lines_of program.now (map string_bytes paths.now) regard headers) errors.new }
{
    tell_at(program, paths, 0, regard, headers.first, errors);
    tell_at(program, paths, 1, regard, headers.second, errors);
}
