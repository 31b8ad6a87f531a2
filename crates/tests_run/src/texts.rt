//! What is printed, by hand from the rules of the commands. Numbers behind `@` are left out.

/// A blob is added, opened, read, unlinked, read while it is open, and closed.
pub const STORED_RUN: &str = "session 0
1 add df6d2bb7dac8a27c99a0ac498fabc106e94eab93dc88d40b2e313aeae33cb5a6 published
2 open 0 df6d2bb7dac8a27c99a0ac498fabc106e94eab93dc88d40b2e313aeae33cb5a6 opened 2
3 read 0 0 2 bytes 2 6869
4 unlink df6d2bb7dac8a27c99a0ac498fabc106e94eab93dc88d40b2e313aeae33cb5a6 unlinked
5 read 0 0 2 bytes 2 6869
6 close 0 closed
7 sync synced
8 list 0
history
1 0 1 begin df6d2bb7dac8a27c99a0ac498fabc106e94eab93dc88d40b2e313aeae33cb5a6 2 granted @
2 0 1 admit df6d2bb7dac8a27c99a0ac498fabc106e94eab93dc88d40b2e313aeae33cb5a6 admitted @
3 0 1 put 0 written @
4 0 1 settle df6d2bb7dac8a27c99a0ac498fabc106e94eab93dc88d40b2e313aeae33cb5a6 published @
5 0 2 open 0 df6d2bb7dac8a27c99a0ac498fabc106e94eab93dc88d40b2e313aeae33cb5a6 opened 2 @
6 0 2 fetch 0 0 fetched @
7 0 3 read 0 0 2 reading @
8 0 4 unlink df6d2bb7dac8a27c99a0ac498fabc106e94eab93dc88d40b2e313aeae33cb5a6 unlinked @
9 0 5 read 0 0 2 reading @
10 0 6 close 0 closed @
11 0 7 sync synced @
12 0 8 list 0 @
13 16 0 unmount unmounted @
";

/// A blob of no byte.
pub const EMPTY_BLOB: &str = "session 0
1 add 15ec7bf0b50732b49f8228e07d24365338f9e3ab994b00af08e5a3bffe55fd8b published
2 open 3 15ec7bf0b50732b49f8228e07d24365338f9e3ab994b00af08e5a3bffe55fd8b opened 0
3 read 3 0 10 bytes 0
4 list 1 15ec7bf0b50732b49f8228e07d24365338f9e3ab994b00af08e5a3bffe55fd8b:0
history
1 0 1 begin 15ec7bf0b50732b49f8228e07d24365338f9e3ab994b00af08e5a3bffe55fd8b 0 granted @
2 0 1 admit 15ec7bf0b50732b49f8228e07d24365338f9e3ab994b00af08e5a3bffe55fd8b admitted @
3 0 1 settle 15ec7bf0b50732b49f8228e07d24365338f9e3ab994b00af08e5a3bffe55fd8b published @
4 0 2 open 3 15ec7bf0b50732b49f8228e07d24365338f9e3ab994b00af08e5a3bffe55fd8b opened 0 @
5 0 2 fetch 3 0 fetched @
6 0 3 read 3 0 10 reading @
7 0 4 list 1 @
8 16 0 unmount unmounted @
";

/// One line, without a newline behind it.
pub const NO_NEWLINE: &str = "session 0
1 sync synced
history
1 0 1 sync synced @
2 16 0 unmount unmounted @
";

/// No line.
pub const EMPTY_SCRIPT: &str = "history
1 16 0 unmount unmounted @
";

/// Slots that are taken or hold nothing, and a blob that isn't there.
pub const SLOT_REFUSALS: &str = "session 0
1 add df6d2bb7dac8a27c99a0ac498fabc106e94eab93dc88d40b2e313aeae33cb5a6 published
2 open 0 df6d2bb7dac8a27c99a0ac498fabc106e94eab93dc88d40b2e313aeae33cb5a6 opened 2
3 open 0 df6d2bb7dac8a27c99a0ac498fabc106e94eab93dc88d40b2e313aeae33cb5a6 slot-taken
4 open 1 7287bb0e6f343873c9d2e8d9750709bade01074c6fb338f13975c4986b77e7b9 not-found
5 read 5 0 1 bad-slot
6 close 5 bad-slot
7 unlink 7287bb0e6f343873c9d2e8d9750709bade01074c6fb338f13975c4986b77e7b9 not-found
history
1 0 1 begin df6d2bb7dac8a27c99a0ac498fabc106e94eab93dc88d40b2e313aeae33cb5a6 2 granted @
2 0 1 admit df6d2bb7dac8a27c99a0ac498fabc106e94eab93dc88d40b2e313aeae33cb5a6 admitted @
3 0 1 put 0 written @
4 0 1 settle df6d2bb7dac8a27c99a0ac498fabc106e94eab93dc88d40b2e313aeae33cb5a6 published @
5 0 2 open 0 df6d2bb7dac8a27c99a0ac498fabc106e94eab93dc88d40b2e313aeae33cb5a6 opened 2 @
6 0 2 fetch 0 0 fetched @
7 0 3 open 0 df6d2bb7dac8a27c99a0ac498fabc106e94eab93dc88d40b2e313aeae33cb5a6 slot-taken @
8 0 4 open 1 7287bb0e6f343873c9d2e8d9750709bade01074c6fb338f13975c4986b77e7b9 not-found @
9 0 5 read 5 0 1 bad-slot @
10 0 6 close 5 bad-slot @
11 0 7 unlink 7287bb0e6f343873c9d2e8d9750709bade01074c6fb338f13975c4986b77e7b9 not-found @
12 16 0 unmount unmounted @
";

/// A blob that is there, that leaves, and that is added again.
pub const LEAVING_ROOT: &str = "session 0
1 add df6d2bb7dac8a27c99a0ac498fabc106e94eab93dc88d40b2e313aeae33cb5a6 published
2 add df6d2bb7dac8a27c99a0ac498fabc106e94eab93dc88d40b2e313aeae33cb5a6 exists
3 open 0 df6d2bb7dac8a27c99a0ac498fabc106e94eab93dc88d40b2e313aeae33cb5a6 opened 2
4 unlink df6d2bb7dac8a27c99a0ac498fabc106e94eab93dc88d40b2e313aeae33cb5a6 unlinked
5 add df6d2bb7dac8a27c99a0ac498fabc106e94eab93dc88d40b2e313aeae33cb5a6 leaving 1
6 close 0 closed
7 add df6d2bb7dac8a27c99a0ac498fabc106e94eab93dc88d40b2e313aeae33cb5a6 leaving 0
8 sync synced
9 add df6d2bb7dac8a27c99a0ac498fabc106e94eab93dc88d40b2e313aeae33cb5a6 published
history
1 0 1 begin df6d2bb7dac8a27c99a0ac498fabc106e94eab93dc88d40b2e313aeae33cb5a6 2 granted @
2 0 1 admit df6d2bb7dac8a27c99a0ac498fabc106e94eab93dc88d40b2e313aeae33cb5a6 admitted @
3 0 1 put 0 written @
4 0 1 settle df6d2bb7dac8a27c99a0ac498fabc106e94eab93dc88d40b2e313aeae33cb5a6 published @
5 0 2 begin df6d2bb7dac8a27c99a0ac498fabc106e94eab93dc88d40b2e313aeae33cb5a6 2 exists @
6 0 3 open 0 df6d2bb7dac8a27c99a0ac498fabc106e94eab93dc88d40b2e313aeae33cb5a6 opened 2 @
7 0 3 fetch 0 0 fetched @
8 0 4 unlink df6d2bb7dac8a27c99a0ac498fabc106e94eab93dc88d40b2e313aeae33cb5a6 unlinked @
9 0 5 begin df6d2bb7dac8a27c99a0ac498fabc106e94eab93dc88d40b2e313aeae33cb5a6 2 leaving 1 @
10 0 6 close 0 closed @
11 0 7 begin df6d2bb7dac8a27c99a0ac498fabc106e94eab93dc88d40b2e313aeae33cb5a6 2 leaving 0 @
12 0 8 sync synced @
13 0 9 begin df6d2bb7dac8a27c99a0ac498fabc106e94eab93dc88d40b2e313aeae33cb5a6 2 granted @
14 0 9 admit df6d2bb7dac8a27c99a0ac498fabc106e94eab93dc88d40b2e313aeae33cb5a6 admitted @
15 0 9 put 0 written @
16 0 9 settle df6d2bb7dac8a27c99a0ac498fabc106e94eab93dc88d40b2e313aeae33cb5a6 published @
17 16 0 unmount unmounted @
";

/// The pages of a blob that is closed and opened again: no window is fetched twice.
pub const KEPT_PAGES: &str = "session 0
1 add 2aa6702783790f06dd3a329ae1e9caa91916fca3264ab73971d4e09d57fcca6e published
2 open 0 2aa6702783790f06dd3a329ae1e9caa91916fca3264ab73971d4e09d57fcca6e opened 73728
3 scan 0 whole 73728
4 close 0 closed
5 open 1 2aa6702783790f06dd3a329ae1e9caa91916fca3264ab73971d4e09d57fcca6e opened 73728
6 scan 1 whole 73728
history
1 0 1 begin 2aa6702783790f06dd3a329ae1e9caa91916fca3264ab73971d4e09d57fcca6e 73728 granted @
2 0 1 admit 2aa6702783790f06dd3a329ae1e9caa91916fca3264ab73971d4e09d57fcca6e admitted @
3 0 1 put 0 written @
4 0 1 put 1 written @
5 0 1 put 2 written @
6 0 1 put 3 written @
7 0 1 put 4 written @
8 0 1 put 5 written @
9 0 1 put 6 written @
10 0 1 put 7 written @
11 0 1 put 8 written @
12 0 1 put 9 written @
13 0 1 settle 2aa6702783790f06dd3a329ae1e9caa91916fca3264ab73971d4e09d57fcca6e published @
14 0 2 open 0 2aa6702783790f06dd3a329ae1e9caa91916fca3264ab73971d4e09d57fcca6e opened 73728 @
15 0 2 fetch 0 1 fetched @
16 0 3 scan 0 reading @
17 0 3 fetch 0 0 fetched @
18 0 4 close 0 closed @
19 0 5 open 1 2aa6702783790f06dd3a329ae1e9caa91916fca3264ab73971d4e09d57fcca6e opened 73728 @
20 0 6 scan 1 reading @
21 16 0 unmount unmounted @
";

/// The line of words that write no command.
pub const USAGE: &str =
    "usage: root | format B N J | format2 B N J | list | check | recover | upgrade | script | fresh B N J | fresh2 B N J | demo N | collect | deliver
";
