use server_words::{WordsFault, connections};
use std::test::Fail;

#[test]
fn reads_the_words(rt: HostRuntime) -> Result<(), Fail> {
    for (words, want) in [
        ([].as_slice(), Ok(1000)),
        (["--connections", "2"].as_slice(), Ok(2)),
        (["--connections=1"].as_slice(), Ok(1)),
        (["--connections", "1000000"].as_slice(), Ok(1_000_000)),
        (["--connections", "0"].as_slice(), Err(WordsFault::Refused)),
        (
            ["--connections", "1000001"].as_slice(),
            Err(WordsFault::Refused),
        ),
        (["--connections", "-1"].as_slice(), Err(WordsFault::Refused)),
        (["--connections", "x"].as_slice(), Err(WordsFault::Refused)),
        (["--connections", ""].as_slice(), Err(WordsFault::Refused)),
        (
            ["--connections", "18446744073709551617"].as_slice(),
            Err(WordsFault::Refused),
        ),
        (["--connections"].as_slice(), Err(WordsFault::Refused)),
        (
            ["--connections", "1", "--connections", "2"].as_slice(),
            Err(WordsFault::Refused),
        ),
        (
            ["--connections", "1", "2"].as_slice(),
            Err(WordsFault::Refused),
        ),
        (["7"].as_slice(), Err(WordsFault::Refused)),
        (["--", "x"].as_slice(), Err(WordsFault::Refused)),
        (["--help"].as_slice(), Err(WordsFault::Refused)),
        (["--version"].as_slice(), Err(WordsFault::Refused)),
    ] {
        let got = connections(rt.alloc(), words);
        assert!(rt; got == want);
    }
    Ok(())
}
