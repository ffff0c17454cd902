//! Texts that several crates of tests use: traces and the reports of their runs.
#![tactic(auto)]

/// A trace in which a VPE derives from its memory and revokes it.
pub const REVOKE_TRACE: &str = "\
semper trace 1
kernels 1
pe 0 0
vpe 0 0
root 0 0 mem 0 4096 7
call 0 derive 0 1 0 1024 1
call 0 revoke 0
end
";

/// The report of the run of `REVOKE_TRACE`.
pub const REVOKE_REPORT: &str = "\
semper report 1
semper trace 1
kernels 1
pe 0 0
vpe 0 0
root 0 0 mem 0 4096 7
call 0 derive 0 1 0 1024 1
call 0 revoke 0
end
journal 3
0 call 0 0 derive 0 1 0 1024 1 grant 0.0.1.0 0.0.1.1 reply 0 0
0 call 0 1 revoke 0 cut 0.0.1.0
0 resume 0 reply 0 0
audit
made 2
cut 1
held 0
end
";

/// The report of a run in which a VPE obtains the memory of another one, at another kernel.
pub const OBTAIN_REPORT: &str = "\
semper report 1
semper trace 1
kernels 2
pe 0 0
pe 1 1
vpe 0 0
vpe 1 1
root 0 0 mem 0 4096 7
call 1 obtain 5 0 0
end
journal 9
1 call 1 0 obtain 5 0 0
1 flush 0 obtain-req 1.1.0 sel 0 0
0 fetch 1 obtain-req 1.1.0 sel 0 0
0 handle 1 obtain-req 1.1.0 sel 0 0
0 upcall 0 1 yes grant 0.0.1.0 1.1.1.0
0 flush 1 obtain-ok 0.0.1.0 1.1.1.0 mem 0 4096 7
1 fetch 0 obtain-ok 0.0.1.0 1.1.1.0 mem 0 4096 7
1 handle 0 obtain-ok 0.0.1.0 1.1.1.0 mem 0 4096 7
1 resume 1 reply 1 0
audit
made 2
cut 0
held 2
key 0.0.1.0 0
key 1.1.1.0 5
end
";

/// The lines of a trace after those that declare its two kernels: they delegate and obtain in turn,
/// until the first one revokes all of it.
pub const CHAIN_OF_FORTY_ONE: &str = "\
pe 0 0
pe 1 1
vpe 0 0
vpe 1 1
root 0 0 mem 0 4096 7
call 0 delegate 0 1 1
call 0 obtain 2 1 1
call 0 delegate 2 1 3
call 0 obtain 4 1 3
call 0 delegate 4 1 5
call 0 obtain 6 1 5
call 0 delegate 6 1 7
call 0 obtain 8 1 7
call 0 delegate 8 1 9
call 0 obtain 10 1 9
call 0 delegate 10 1 11
call 0 obtain 12 1 11
call 0 delegate 12 1 13
call 0 obtain 14 1 13
call 0 delegate 14 1 15
call 0 obtain 16 1 15
call 0 delegate 16 1 17
call 0 obtain 18 1 17
call 0 delegate 18 1 19
call 0 obtain 20 1 19
call 0 delegate 20 1 21
call 0 obtain 22 1 21
call 0 delegate 22 1 23
call 0 obtain 24 1 23
call 0 delegate 24 1 25
call 0 obtain 26 1 25
call 0 delegate 26 1 27
call 0 obtain 28 1 27
call 0 delegate 28 1 29
call 0 obtain 30 1 29
call 0 delegate 30 1 31
call 0 obtain 32 1 31
call 0 delegate 32 1 33
call 0 obtain 34 1 33
call 0 delegate 34 1 35
call 0 obtain 36 1 35
call 0 delegate 36 1 37
call 0 obtain 38 1 37
call 0 delegate 38 1 39
call 0 obtain 40 1 39
call 0 revoke 0
end
";

/// The lines of a trace after those that declare its two kernels: a chain goes with its owner, who
/// is killed.
pub const KILL_OF_CHAIN: &str = "\
pe 0 0
pe 1 1
vpe 0 0
vpe 1 1
root 0 0 mem 0 4096 7
call 0 delegate 0 1 1
call 0 obtain 1 1 1
kill 0 2
end
";
