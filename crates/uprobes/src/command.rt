// The words of the command line.
use std::process::ExitCode;

// What `--help` prints.
const HELP: &str = "uprobes finds the files and offsets that user space probes go to.

  uprobes                                  a day on embedded data, step by step
  uprobes target NAME [--pid N | --maps FILE] [--cache FILE]
                                           the file that a library's name stands for
  uprobes offset ADDRESS SECTION_ADDRESS SECTION_OFFSET
                                           where in the file an address lies
  uprobes file PATH                        what an object file says: kind, sections, symbols,
                                           debuglink, build id
  uprobes explain NUMBER                   a refusal in words
  uprobes [COMMAND] --help                 this text

target: a NAME that is a path stands for itself. Any other is looked up in the maps of the process
  N (/proc/N/maps) or in the maps in FILE, if one is given, and then in the loader's cache
  (/etc/ld.so.cache, or FILE). It prints source, path, place and length, a line each.
offset: numbers are decimal, or hexadecimal behind 0x.
file: PATH is a 64-bit little-endian ELF file. It prints a line for each fact:
  kind executable | dynamic | other
  section NUMBER ADDRESS OFFSET            OFFSET is none where it takes no room in the file
  symbol PLACE ADDRESS SECTION NAME        in the order of a scan, dynamic ones first; SECTION is
                                           none where it has none; no NAME where it cannot be read
  debuglink absent | malformed | named NAME
  build-id absent | HEX
  For any other file it prints 'no object'.

A refusal is printed on the standard error with its number, and ends the program with status 1.
";

/// Whether a command line asks for help: by its command, or by `--help` anywhere.
pub fn asks_help(command: &str, words: &[String]) -> bool {
    match command {
        "help" | "-h" | "--help" => true,
        _ => words.iter().any(|word| word.as_str() == "--help"),
    }
}

/// Prints the help.
pub(crate) fn help(rt: &HostRuntime) -> anyhow::Result<ExitCode> {
    rt.print(HELP)?;
    Ok(ExitCode::SUCCESS)
}

/// Where the maps come from that a bare name is looked up in.
#[derive(Clone, Copy)]
pub enum MapsFrom<'a> {
    /// No maps are looked at.
    Nowhere,
    /// The maps of the process with this number.
    Process(&'a str),
    /// The maps in this file.
    File(&'a str),
}

impl<'a> MapsFrom<'a> {
    // The maps of a process, or none where a file was named before.
    fn or_process(self, number: &'a str) -> Option<MapsFrom<'a>> {
        match self {
            MapsFrom::Nowhere | MapsFrom::Process(_) => Some(MapsFrom::Process(number)),
            MapsFrom::File(_) => None,
        }
    }

    // The maps in a file, or none where a process was named before.
    fn or_file(self, path: &'a str) -> Option<MapsFrom<'a>> {
        match self {
            MapsFrom::Nowhere | MapsFrom::File(_) => Some(MapsFrom::File(path)),
            MapsFrom::Process(_) => None,
        }
    }
}

/// What a `target` command asks for.
#[derive(Clone, Copy)]
pub struct TargetWords<'a> {
    pub name: &'a str,
    pub maps: MapsFrom<'a>,
    pub cache: Option<&'a str>,
}

/// The words of a `target` command, or none where they are not in order. The word after an option is its value, whatever it is.
pub fn target_words(words: &[String]) -> Option<TargetWords<'_>> {
    let mut name = None;
    let mut maps = MapsFrom::Nowhere;
    let mut cache = None;
    let mut words = words.iter();
    while let Some(word) = words.next() {
        match word.as_str() {
            "--pid" => maps = maps.or_process(words.next()?.as_str())?,
            "--maps" => maps = maps.or_file(words.next()?.as_str())?,
            "--cache" => cache = Some(words.next()?.as_str()),
            word if name.is_some() || word.starts_with("--") => return None,
            word => name = Some(word),
        }
    }
    Some(TargetWords {
        name: name?,
        maps,
        cache,
    })
}

/// Says that a command line cannot be read, and where help is.
pub fn misused(rt: &HostRuntime, what: &str) -> anyhow::Result<ExitCode> {
    eprintln!(rt; "uprobes: cannot read '{what}'; try 'uprobes --help'")?;
    Ok(ExitCode::FAILURE)
}
