//! Laws of the definitions in `specs`, and worked files and texts.

ghost use Rattle.std.specs.Prelude.{◌≡◌, [], ◌∷◌, codes, ◌++◌, Ok, Err};
ghost use Rattle.rollout_model.specs.declared.action_word.ActionWord.TheVariants as action;
ghost use Rattle.rollout_model.specs.declared.group_word.GroupWord.TheVariants as group;
ghost use Rattle.rollout_model.specs.declared.rollout_word.RolloutWord.TheVariants as rollout;
ghost use Rattle.rollout_model.specs.Limits.{limits};
ghost use Rattle.artifact_pieces.specs.Digests.{digest_of};
ghost use Rattle.desk_files.specs.ActionTables.{table_text};
ghost use Rattle.desk_files.specs.Imports.{targets_in_file};
ghost use Rattle.desk_files.specs.Laws.{TablesAreCsv, TagsAreJoined, worked_action, worked_group, worked_rollout};
ghost use Rattle.desk_files.specs.Reports.{report_lines};

use rollout_model::limits::FILE_LENGTH_LIMIT;

/// What holds of all files:
/// - `tags_are_joined`: the words of a field of tags, with one space between two, are the field
/// - `tables_are_csv`: a table of actions is what `csv` writes of its header and its records
/// - `file_limit`: the constant is the limit of an import's file
pub fn files()
    ensures tags_are_joined { TagsAreJoined }
    ensures tables_are_csv { TablesAreCsv }
    ensures file_limit { FILE_LENGTH_LIMIT ≡ limits.file_length }
{}

/// Worked files and texts:
/// - `import`: a worked file: three targets, the second of them without tags
/// - `fault`: the same with the first id in place of the third: the fourth record is the faulty one
/// - `cut`: a file that ends within a quoted field, without a line feed
/// - `report`: the report of a worked rollout
/// - `table`: a worked table of actions
pub fn worked_files()
    ensures import { targets_in_file
        (codes "controllerid,name,token,tags\ndev-01,Lab one,tok-dev-01,lab\ndev-02,Lab two,tok-dev-02,\ndev-03,Yard,tok-dev-03,lab outdoor\n")
        ≡ Ok (record { id = codes "dev-01"; name = codes "Lab one"; digest = digest_of (codes "tok-dev-01"); tags = codes "lab" ∷ [] }
        ∷ record { id = codes "dev-02"; name = codes "Lab two"; digest = digest_of (codes "tok-dev-02"); tags = [] }
        ∷ record { id = codes "dev-03"; name = codes "Yard"; digest = digest_of (codes "tok-dev-03"); tags = codes "lab" ∷ codes "outdoor" ∷ [] } ∷ []) }
    ensures fault { targets_in_file (codes "controllerid,name,token,tags\ndev-01,Lab one,tok-dev-01,lab\ndev-02,Lab two,tok-dev-02,\ndev-01,"
        ++ codes "Yard,tok-dev-03,lab outdoor\n") ≡ Err 4 }
    ensures cut { targets_in_file (codes "controllerid,name,token,tags\ndev-01,\"Lab") ≡ Err 0 }
    ensures report { report_lines worked_rollout (worked_group 1 3 2 group.Running ∷ worked_group 2 3 0 group.Running
        ∷ worked_group 3 4 0 group.Scheduled ∷ []) ≡ codes "rollout 1 spring\nstate running\ngroup  size    ok   bad  gone  open state\n"
        ++ codes "    1     3     2     0     0     1 running\n    2     3     0     0     0     3 running\n"
        ++ codes "    3     4     0     0     0     4 scheduled\ntotal    10     2     0     0     8 running\n" }
    ensures table { table_text (worked_action 11 (codes "dev-01") action.Finished ∷ worked_action 12 (codes "dev-02") action.Running ∷ [])
        ≡ codes "action,controllerid,group,state\n11,dev-01,1,finished\n12,dev-02,1,running\n" }
{}
