ghost use Rattle.std.specs.Prelude.{◌≡◌, ◌≤◌, length};
ghost use Rattle.sem_msg.specs.Setup.{IsSetup};
ghost use Rattle.sem_machine.specs.Schedules.{Always, IsSchedule, world_after};
ghost use Rattle.sem_machine.specs.Living.{IsIdle, IsQuiet};
ghost use Rattle.sem_messages.specs.Messages.{all_sent, count_sent, messages_made};
ghost use Rattle.sem_messages.specs.Messages.{grants_across, grants_told, IsAnswered};
ghost use Rattle.sem_messages.specs.Messages.{is_obtain_req, is_obtain_ok, is_obtain_no};
ghost use Rattle.sem_messages.specs.Messages.{is_delegate_req, is_prepared, is_delegate_no};
ghost use Rattle.sem_messages.specs.Messages.{is_ack, is_ack_yes, is_revoke_req, is_revoke_done};
ghost use Rattle.sem_messages.specs.Messages.{is_orphan, is_unlink};
ghost use Rattle.sem_messages.specs.EachKind.{each_kind, each_kind_journal};

/// If a schedule leaves an idle world, as many replies were sent as requests, kind by kind: as many
/// obtains as grants and refusals of them, as many delegates as preparations and refusals, as many
/// preparations as acknowledgements, and as many requests to revoke as replies that one is done.
/// The law counts messages; it does not tie a reply to its request.
pub fn requests_are_answered()
    ensures answered { Always (λ T J. IsIdle (world_after T J) → IsAnswered J) }
{}

/// Then as many grants were made from one kernel to another as messages were sent that tell of one:
/// an ObtainOk, or an Ack that accepts. The law does not tie a message to its grant.
pub fn grants_are_told()
    ensures told { Always (λ T J. IsIdle (world_after T J) → grants_across T J ≡ grants_told J) }
{}

/// Then the requests and notices give the number of all messages. There are two for each obtain
/// across kernels, two for each delegate and one more for each prepared one, two for each request
/// to revoke, and one for each orphan and unlink.
pub fn messages_are_counted()
    ensures counted { Always (λ T J. IsIdle (world_after T J)
        → length (all_sent J) ≡ messages_made J) }
{}

/// After every schedule, idle or not, no more requests to revoke were sent than grants were made
/// from one kernel to another.
pub fn revokes_follow_grants()
    ensures few { Always (λ T J. count_sent is_revoke_req J ≤ grants_across T J) }
{}

/// The laws are not empty: a setup of two kernels has a schedule that sends messages of every kind,
/// and after which nothing is left to do.
pub fn each_kind_is_sent()
    ensures setup { IsSetup each_kind }
    ensures schedule { IsSchedule each_kind each_kind_journal }
    ensures quiet { IsQuiet each_kind (world_after each_kind each_kind_journal) }
    ensures obtains { (count_sent is_obtain_req each_kind_journal ≡ 3)
        × (count_sent is_obtain_ok each_kind_journal ≡ 2)
        × (count_sent is_obtain_no each_kind_journal ≡ 1) }
    ensures delegates { (count_sent is_delegate_req each_kind_journal ≡ 2)
        × (count_sent is_prepared each_kind_journal ≡ 1)
        × (count_sent is_delegate_no each_kind_journal ≡ 1) }
    ensures acks { (count_sent is_ack each_kind_journal ≡ 1)
        × (count_sent is_ack_yes each_kind_journal ≡ 1) }
    ensures revokes { (count_sent is_revoke_req each_kind_journal ≡ 1)
        × (count_sent is_revoke_done each_kind_journal ≡ 1) }
    ensures notices { (count_sent is_orphan each_kind_journal ≡ 1)
        × (count_sent is_unlink each_kind_journal ≡ 1) }
    ensures grants { grants_across each_kind each_kind_journal ≡ 3 }
    ensures sent { length (all_sent each_kind_journal) ≡ 15 }
{}
