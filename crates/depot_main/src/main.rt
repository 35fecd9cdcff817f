// Tells what a dead terminal's cab.img and cab.log come to (docs/DEPOT.md). depot [--loads] [FOLDER ..]: the files in each folder, or in this one.
#![tactic(auto)]

ghost use Rattle.std.specs.Prelude.{◌+◌, ◌≤◌, length, IfSome};
ghost use Rattle.std.specs.Counts.{IsPrefixLen};

use console::PATH_MAX;
use depot::Sheet;
use std::io;
use std::rt::{Env, Files};

// Room for any folder's name, and that of a file behind it. So a path is never cut: where it is too long, that is told when it is opened.
const PATH: usize = PATH_MAX + 8;

// Options are read first, so that nothing is written where one is not known.
fn main(rt: HostRuntime) {
    let args = console::arg_count(&rt);
    let sheet = sheet_asked(&rt);
    let first = first_folder(sheet);
    if has_option(&rt, first, args) {
        console::complain(&rt, b"usage: depot [--loads] [FOLDER ..]\n");
        return;
    }
    if args <= first {
        from_folder(&rt, b".", sheet, false);
        return;
    }
    from_all(&rt, first, args, sheet);
}

// The report, unless the first argument is `--loads`.
fn sheet_asked(rt: &impl Env) -> Sheet {
    let mut word = [0u8; PATH_MAX];
    match console::argument(rt, 1, &mut word) {
        Ok(n) if &word[..n] == b"--loads".as_slice() => Sheet::Pay,
        _ => Sheet::Report,
    }
}

// Which argument names the first folder: that of the loads stands behind the option.
fn first_folder(sheet: Sheet) -> usize {
    match sheet {
        Sheet::Report => 1,
        Sheet::Pay => 2,
    }
}

// Whether one of the arguments from the first folder's on begins with `-`.
fn has_option(rt: &impl Env, first: usize, args: usize) -> bool {
    (first..args).any(|i| is_option(rt, i))
}

// Whether argument i begins with `-`. One that is too long has its first bytes here all the same.
fn is_option(rt: &impl Env, i: usize) -> bool {
    let mut word = [0u8; PATH_MAX];
    let _ = console::argument(rt, i, &mut word);
    word[0] == b'-'
}

// The folders that the arguments name, one after the other. Where there are several each text has its folder's name over it.
fn from_all(rt: &(impl Env + Files + Print + Eprint), first: usize, args: usize, sheet: Sheet)
    requires { first ≤ args }
{
    let several = args - first > 1;
    for i in first..args {
        from_argument(rt, i, sheet, several);
    }
}

// The folder that argument i names. A name that is too long is not cut, since what is left of it would name another folder.
fn from_argument(rt: &(impl Env + Files + Print + Eprint), i: usize, sheet: Sheet, several: bool) {
    let mut name = [0u8; PATH_MAX];
    match console::argument(rt, i, &mut name) {
        Ok(n) => from_folder(rt, &name[..n], sheet, several),
        Err(e) => console::fail(rt, &name, e),
    }
}

// What a folder's files come to. Where one of them cannot be read that has been said, and nothing is written. Of each there is room for one byte more than may
// be in it, so that one which is longer is refused.
fn from_folder(rt: &(impl Files + Print + Eprint), folder: &[u8], sheet: Sheet, several: bool)
    requires { length folder.now ≤ 4096 }
{
    if !is_there(rt, folder) {
        return;
    }
    let mut image = [0u8; depot::IMAGE_LIMIT + 1];
    let Some(m) = file(rt, folder, b"/cab.img", &mut image) else {
        return;
    };
    let mut log = [0u8; logging::LIMIT + 1];
    let Some(n) = file(rt, folder, b"/cab.log", &mut log) else {
        return;
    };
    show(rt, folder, &image[..m], &log[..n], sheet, several);
}

// Whether the folder can be opened, so that a file which is missing in it is known to be missing. Where it cannot, that is said.
fn is_there(rt: &(impl Files + Eprint), folder: &[u8]) -> bool {
    if let Err(e) = console::open(rt, folder) {
        console::fail(rt, folder, e);
        return false;
    }
    true
}

// The file of that name in a folder. One that is missing counts as empty.
fn file(rt: &(impl Files + Eprint), folder: &[u8], name: &[u8], buffer: &mut [u8]) -> Option<usize>
    requires { length folder.now + length name.now ≤ 4104 }
    ensures { IfSome result (λ n. IsPrefixLen n buffer.new) }
{
    let mut path = [0u8; PATH];
    let n = join(folder, name, &mut path);
    console::if_there(rt, &path[..n], buffer)
}

// A folder's name, and a file's behind it. The length of both.
fn join(folder: &[u8], name: &[u8], path: &mut [u8]) -> usize
    requires { length folder.now + length name.now ≤ length path.old }
    ensures { IsPrefixLen result path.new }
{
    let n = folder.len();
    let end = n + name.len();
    path[..n].copy_from_slice(folder);
    path[n..end].copy_from_slice(name);
    end
}

// The text of an image and its log.
fn show(
    rt: &(impl Print + Eprint),
    folder: &[u8],
    image: &[u8],
    log: &[u8],
    sheet: Sheet,
    several: bool,
) {
    let mut text = [0u8; depot::LONGEST_LOADS];
    let t = match sheet {
        Sheet::Report => depot::report(image, log, &mut text),
        Sheet::Pay => depot::loads(image, log, &mut text),
    };
    write(rt, folder, &text[..usize::from(t.length)], several);
}

// Writes a text. Where that fails it is said, since the text may not be whole then.
fn write(rt: &(impl Print + Eprint), folder: &[u8], text: &[u8], several: bool) {
    if let Err(e) = written(rt, folder, text, several) {
        console::fail(rt, b"standard output", e);
    }
}

// The text, and over it, where there are several, whose it is. Nothing is written behind what could not be.
fn written(rt: &impl Print, folder: &[u8], text: &[u8], several: bool) -> io::Result<()> {
    if several {
        headed(rt, folder)?;
    }
    rt.write_all(text)
}

// `folder NAME`, with the name's own bytes, which need not be text.
fn headed(rt: &impl Print, folder: &[u8]) -> io::Result<()> {
    print!(rt; "folder ")?;
    rt.write_all(folder)?;
    println!(rt)
}
