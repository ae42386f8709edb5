use std::alloc::{AllocError, Global};
use words::{Settings, SettingsStop, read_settings};

// What is read of words, as text.
fn text_of(alloc: Global, read: Result<Settings, SettingsStop>) -> Result<String, AllocError> {
    match read {
        Ok(settings) => format!(in alloc; "{settings:?}"),
        Err(SettingsStop::Usage(usage)) => format!(in alloc; "{usage:?}"),
        Err(SettingsStop::Memory) => String::from_str(alloc, "memory"),
    }
}

// Lines of each tool.
const LINES: &str = r#"solve | UnknownTool
enummixed -c | Words
enummixed -j 65 | Words
convert | Words
lcp -e 2 | Words
lcp -qS -e=1 -- game | Lcp { strategic: true, perfect: false, file: Some("game") }
lcp -e 1 -e 1 game | Words
enumpure a b | Words
lp --price | Words
enumpure -S -P game | Words
lp -P --prices game | Words
lp --prices game | Lp { strategic: false, prices: true, perfect: false, file: Some("game") }
check -S game | Check { strategic: true, game: "game", lines: None }
make 1 2 2 | Make { number: 1, rows: 2, columns: 2, workers: 1 }
enummixed -D -j 2 | Enummixed { all: true, workers: 2, file: None }
make -j 2 1 2 2 | Make { number: 1, rows: 2, columns: 2, workers: 2 }
convert -O html -r 2 | Convert { layout: Html, row: 2, column: 2, file: None }"#;

// Runs of flags, and flags that a tool does not have.
const FLAGS: &str =
    r#"enumpure | Enumpure { strategic: false, agents: false, perfect: false, file: None }
enumpure -q -q | Enumpure { strategic: false, agents: false, perfect: false, file: None }
enumpure -SqS -S | Enumpure { strategic: true, agents: false, perfect: false, file: None }
enumpure -AP | Enumpure { strategic: false, agents: true, perfect: true, file: None }
enumpure -P game -q | Enumpure { strategic: false, agents: false, perfect: true, file: Some("game") }
enumpure -PSq x | Words
enumpure -S -A | Words
enumpure x -S | Enumpure { strategic: true, agents: false, perfect: false, file: Some("x") }
enumpure -s | Words
enumpure -S= | Words
enumpure -S=x | Words
enumpure -Sx | Words
enumpure -é | Words
enumpure -Sé | Words
enumpure -h | Words
enumpure -V | Words
enumpure -2 | Words
enumpure --help | Words
enumpure --prices | Words
enumpure --S | Words
enumpure -S- | Words"#;

// Words that are no flags, and words that end the flags.
const PLAIN: &str =
    r#"enumpure - | Enumpure { strategic: false, agents: false, perfect: false, file: Some("-") }
enumpure  | Enumpure { strategic: false, agents: false, perfect: false, file: Some("") }
enumpure   | Words
enumpure -- | Enumpure { strategic: false, agents: false, perfect: false, file: None }
enumpure -- -- | Enumpure { strategic: false, agents: false, perfect: false, file: Some("--") }
enumpure -- -S | Enumpure { strategic: false, agents: false, perfect: false, file: Some("-S") }
enumpure -S -- -A | Enumpure { strategic: true, agents: false, perfect: false, file: Some("-A") }
enumpure -- a b | Words
enumpure a -- b | Words
enumpure é | Enumpure { strategic: false, agents: false, perfect: false, file: Some("é") }
enumpure help | Enumpure { strategic: false, agents: false, perfect: false, file: Some("help") }
-- enumpure | UnknownTool
-q enumpure | UnknownTool
 | UnknownTool
Enumpure | UnknownTool
lp enumpure | Lp { strategic: false, prices: false, perfect: false, file: Some("enumpure") }
check | Words
check a | Check { strategic: false, game: "a", lines: None }
check a b | Check { strategic: false, game: "a", lines: Some("b") }
check a -S b | Check { strategic: true, game: "a", lines: Some("b") }
check a b c | Words
check -- -S | Check { strategic: false, game: "-S", lines: None }
check - - | Check { strategic: false, game: "-", lines: Some("-") }
check -O | Words"#;

// Values of flags.
const VALUES: &str = r#"convert -Ohtml | Convert { layout: Html, row: 1, column: 2, file: None }
convert -qO=sgame x | Convert { layout: Sgame, row: 1, column: 2, file: Some("x") }
convert -O sgame | Convert { layout: Sgame, row: 1, column: 2, file: None }
convert -O= | Words
convert -O==html | Words
convert -O =html | Words
convert -O | Words
convert -O - | Words
convert -O- | Words
convert -O -q | Words
convert -O -- html | Words
convert -O -- | Words
convert -O --prices | Words
convert -O  | Words
convert -Ohtml -O html | Words
convert -Oq | Words
convert -O HTML | Words
convert -O htm | Words
convert -Ohtml -r3 -c 1 | Convert { layout: Html, row: 3, column: 1, file: None }
convert x -c4294967295 -r=1 -O html | Convert { layout: Html, row: 1, column: 4294967295, file: Some("x") }
convert -Ohtml -c 4294967296 | Words
convert -Ohtml -r 0 | Words
convert -Ohtml -r | Words
lcp -e1 | Lcp { strategic: false, perfect: false, file: None }
lcp -e 01 | Words
lcp -e= | Words
lcp -e=1 -S | Lcp { strategic: true, perfect: false, file: None }
lcp -PS | Words
lcp -P -e 1 game | Lcp { strategic: false, perfect: true, file: Some("game") }
lcp -eS | Words
lcp -e 1 -- -e 1 | Words
lp --prices --prices | Lp { strategic: false, prices: true, perfect: false, file: None }
lp --prices= | Words
lp --prices=1 | Words
lp --pricesx | Words
lp -S --prices | Lp { strategic: true, prices: true, perfect: false, file: None }
lp -PS | Words
lp -Pq | Lp { strategic: false, prices: false, perfect: true, file: None }
lp -- --prices | Lp { strategic: false, prices: false, perfect: false, file: Some("--prices") }
lp -prices | Words"#;

// Numbers of workers, rows and columns.
const NUMBERS: &str = r#"enummixed -j 1 | Enummixed { all: false, workers: 1, file: None }
enummixed -j64 | Enummixed { all: false, workers: 64, file: None }
enummixed -j=7 x | Enummixed { all: false, workers: 7, file: Some("x") }
enummixed -j 0 | Words
enummixed -j 01 | Enummixed { all: false, workers: 1, file: None }
enummixed -j 0000000001 | Enummixed { all: false, workers: 1, file: None }
enummixed -j 00000000001 | Words
enummixed -j -1 | Words
enummixed -j-1 | Words
enummixed -j +1 | Words
enummixed -j= | Words
enummixed -j  | Words
enummixed -j | Words
enummixed -j 1 -j 1 | Words
enummixed -j 1x | Words
enummixed -j ١ | Words
enummixed -Dj | Words
enummixed -Dj3 | Enummixed { all: true, workers: 3, file: None }
enummixed -jD | Words
make 0 1 32 | Make { number: 0, rows: 1, columns: 32, workers: 1 }
make 2147483647 32 1 | Make { number: 2147483647, rows: 32, columns: 1, workers: 1 }
make 2147483648 1 1 | Words
make 1 0 1 | Words
make 1 33 1 | Words
make 1 1 33 | Words
make 1 1 | Words
make 1 1 1 1 | Words
make | Words
make -1 1 1 | Words
make -- -1 1 1 | Words
make 1 -q 2 -j3 3 | Make { number: 1, rows: 2, columns: 3, workers: 3 }
make 9999999999 1 1 | Words
make 1 1  | Words
make 1 1 +1 | Words
make -j65 1 1 1 | Words"#;

// Whether the words say this.
fn says(alloc: Global, words: &[String], wanted: &str) -> Result<bool, AllocError> {
    let read = text_of(alloc, read_settings(alloc, words))?;
    Ok(read.as_str() == wanted)
}

// Whether the words of a line, with a space between them, say what stands after the stroke.
fn holds(alloc: Global, line: &str) -> Result<bool, AllocError> {
    let (words, wanted) = line.split_once(" | ").unwrap_or((line, ""));
    let mut owned = Vec::new(alloc);
    for word in words.split(' ') {
        owned.push(String::from_str(alloc, word)?)?;
    }
    says(alloc, &owned, wanted)
}

#[test]
fn worked_lines(rt: HostRuntime) -> Result<(), AllocError> {
    for lines in [LINES, FLAGS, PLAIN, VALUES, NUMBERS] {
        for line in lines.split('\n') {
            assert!(rt; holds(rt.alloc(), line)?, "{line}");
        }
    }
    Ok(())
}

// No words, and a word with a space. A flag may stand more often than a byte counts.
#[test]
fn other_words(rt: HostRuntime) -> Result<(), AllocError> {
    let alloc = rt.alloc();
    assert!(rt; says(alloc, &[], "NoTool")?);
    let mut words = Vec::new(alloc);
    words.push(String::from_str(alloc, "enumpure ")?)?;
    assert!(rt; says(alloc, &words, "UnknownTool")?);
    let mut line = String::from_str(alloc, "enumpure")?;
    for _ in 0..300 {
        line.push_str(" -S")?;
    }
    line.push_str(" | Enumpure { strategic: true, agents: false, perfect: false, file: None }")?;
    assert!(rt; holds(alloc, line.as_str())?);
    Ok(())
}
